// A frame that claims pixels for a direction's number: where one of its pixels is above the best so far, it becomes the best and its number is stored.
ghost use Rattle.std.specs.Prelude.{◌≡◌, true, ℕ, ◌*◌, ◌≤◌, min};
ghost use lib.ListN;
ghost use lib.ListN.{get_or};
ghost use Rattle.frame.specs.Lines.{at, place};
ghost use Rattle.frame.specs.Shape.{is_frame, needed, gapless};
ghost use Rattle.opening.specs.Pixels.{opened_pixel};
ghost use Rattle.opening.specs.Steps.{FrameClaimed, Ready};

use crate::Pixel;
use crate::frames::opened_into;
use crate::linewise::opened_line;
use answer::LONGEST;
use frame::{Direction, Shape};

// `new`, a frame of the same pixels without gaps, claims pixels row by row.
fn claim_rows(new: &[Pixel], number: u8, shape: Shape, dst: &mut [Pixel], directions: &mut [u8])
    requires { (is_frame shape ≡ true) × (shape.width * shape.height ≤ lib.ListN.length new.now) × (needed shape ≤ lib.ListN.length dst.old) × (needed shape ≤ lib.ListN.length directions.old) }
    ensures { FrameClaimed shape (λ (x y : ℕ). get_or new.now (place (gapless shape) (at x y)) 0) number dst.old dst.new directions.old directions.new }
{
    for y in 0..shape.height {
        passes::claim(
            new,
            y * shape.width,
            shape.width,
            number,
            dst,
            directions,
            y * shape.stride,
        );
    }
}

// The frame src, opened in the direction d, claims pixels line by line.
fn claim_lines(
    src: &[Pixel],
    number: u8,
    shape: Shape,
    d: Direction,
    length: usize,
    dst: &mut [Pixel],
    directions: &mut [u8],
)
    requires { Ready shape d length (lib.ListN.length src.now) (min (lib.ListN.length dst.old) (lib.ListN.length directions.old)) }
    ensures { FrameClaimed shape (opened_pixel src.now shape d length) number dst.old dst.new directions.old directions.new }
{
    let lines = frame::lines_of(shape, d);
    let mut values: [Pixel; LONGEST] = [0; LONGEST];
    for u in 0..lines.count {
        let line = opened_line(src, shape, d, u, length, &mut values);
        gathering::claim(&values, number, shape, d, line, dst, directions);
    }
}

// The same: by way of scratch, where a frame without gaps has room there, else line by line.
// dst and directions are not one struct: `highest` is lent them apart, and `passes::claim` and `gathering::claim` take them apart.
pub(crate) fn claim_by(
    src: &[Pixel],
    number: u8,
    shape: Shape,
    d: Direction,
    length: usize,
    dst: &mut [Pixel],
    directions: &mut [u8],
    scratch: &mut [u8],
)
    requires { Ready shape d length (lib.ListN.length src.now) (min (lib.ListN.length dst.old) (lib.ListN.length directions.old)) }
    ensures { FrameClaimed shape (opened_pixel src.now shape d length) number dst.old dst.new directions.old directions.new }
{
    if scratch.len() < shape.width * shape.height {
        claim_lines(src, number, shape, d, length, dst, directions);
    } else {
        opened_into(src, shape, d, length, shape.width, scratch);
        claim_rows(scratch, number, shape, dst, directions);
    }
}
