// The lent row.
ghost use Rattle.gathering.specs.Rows.{LendsRow};

use crate::Pixel;
use frame::Shape;

// Lends back row y of a frame without its gap, the bytes themselves in src; the empty part at the start of src where there is no such row, or rule 1 or 5 refuses
// the frame. Not an `Option`: the specification gives the empty part there, and `LendsRow` says where it begins.
pub fn row(src: &[Pixel], shape: Shape, y: usize) -> &[Pixel]
    ensures { LendsRow src.entry shape y result }
{
    if !shape.is_frame() || src.len() < shape.bytes() || shape.height <= y {
        return &src[..0];
    }
    let from = y * shape.stride;
    &src[from..from + shape.width]
}
