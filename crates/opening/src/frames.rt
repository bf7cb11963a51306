// The opening of a frame in one direction.
ghost use Rattle.std.specs.Prelude.{◌≡◌, true, ◌≤◌};
ghost use lib.ListN;
ghost use Rattle.frame.specs.Shape.{shape as frame, is_frame, needed};
ghost use Rattle.frame.specs.Sweep.{Accepted};
ghost use Rattle.frame.specs.Painted.{Painted};
ghost use Rattle.opening.specs.Pixels.{opened_pixel};
ghost use Rattle.answer.specs.Refusals.{finished};
ghost use Rattle.opening.specs.Frames.{OpensFrame};

use crate::Pixel;
use crate::lent::tested;
use crate::rowwise::open_rows;
use answer::Refusal;
use frame::{Direction, Shape};

// The frame src, opened in the direction d with windows of `length` pixels, into dst, a frame of the same width and height whose rows are `stride` apart. Along, each row is opened as it
// comes; else dst gets a copy, by windows of one pixel, and is opened where it stands.
// src and its shape are not one struct, here and in the functions below: dst and the directions have the same shape, so that it belongs to none of the three.
pub(crate) fn opened_into(
    src: &[Pixel],
    shape: Shape,
    d: Direction,
    length: usize,
    stride: usize,
    dst: &mut [Pixel],
)
    requires { (is_frame shape ≡ true) × Accepted (frame shape.width shape.height stride) d × (1 ≤ length) × (needed shape ≤ lib.ListN.length src.now) × (needed (frame shape.width shape.height stride) ≤ lib.ListN.length dst.old) }
    ensures { Painted (frame shape.width shape.height stride) (opened_pixel src.now shape d length) dst.old dst.new }
{
    if d.q == 0 {
        open_rows(src, shape, length, stride, dst);
        return;
    }
    open_rows(src, shape, 1, stride, dst);
    let frame = Shape { stride, ..shape };
    if d.goes_down() {
        rows::open_down(dst, frame, d, length);
    } else {
        rows::open_shallow(dst, frame, d, length);
    }
}

// Opens each line of the frame src in the direction d, into the frame dst, with windows as long as `length` pixels along a row. Rules 1, 2, 3, 5, 6, 7.
pub fn open_frame(
    src: &[Pixel],
    shape: Shape,
    d: Direction,
    length: usize,
    dst: &mut [Pixel],
    scratch: &mut [u8],
) -> Result<(), Refusal>
    ensures { OpensFrame src.now shape d length dst.old dst.new scratch.old scratch.new (finished result) }
{
    tested(shape, d, length, src.len(), dst.len(), scratch.len())?;
    opened_into(src, shape, d, d.pixels_for(length), shape.stride, dst);
    Ok(())
}
