// The highest opening over the sixteen numbered directions, and the number of the direction that gives it.
ghost use Rattle.std.specs.Prelude.{◌≡◌, min};
ghost use lib.ListN;
ghost use Rattle.frame.specs.Direction.{along};
ghost use Rattle.frame.specs.Painted.{Painted};
ghost use Rattle.answer.specs.Refusals.{finished};
ghost use Rattle.opening.specs.Pixels.{highest_at, direction_at};
ghost use Rattle.opening.specs.Sixteen.{FindsHighest};
ghost use Rattle.opening.specs.Steps.{Ready};

use crate::Pixel;
use crate::claiming::claim_by;
use crate::lent::tested;
use crate::rowwise::{blacken, open_rows};
use answer::Refusal;
use frame::{Direction, Shape};

// Direction 0 is along: it holds every pixel at first, with its rows as the best, and the others claim pixels in their order.
fn highest_into(
    src: &[Pixel],
    shape: Shape,
    length: usize,
    dst: &mut [Pixel],
    directions: &mut [u8],
    scratch: &mut [u8],
)
    requires { Ready shape along length (lib.ListN.length src.now) (min (lib.ListN.length dst.old) (lib.ListN.length directions.old)) }
    ensures { Painted shape (highest_at src.now shape length) dst.old dst.new × Painted shape (direction_at src.now shape length) directions.old directions.new }
{
    open_rows(src, shape, length, shape.stride, dst);
    blacken(shape, directions);
    for n in 1..16u8 {
        let d = Direction::numbered(usize::from(n));
        let pixels = d.pixels_for(length);
        claim_by(src, n, shape, d, pixels, dst, directions, scratch);
    }
}

// At each pixel of the frame src, into the frame dst the greatest of its openings in the sixteen numbered directions, with windows as long as `length` pixels
// along a row, and into the frame `directions` the number of the direction, the lowest of them, that reaches it. Rules 1, 3, 5, 6 of either, 7.
// Where scratch has width·height bytes, which rule 7 does not ask for, it is many times as fast.
pub fn highest(
    src: &[Pixel],
    shape: Shape,
    length: usize,
    dst: &mut [Pixel],
    directions: &mut [u8],
    scratch: &mut [u8],
) -> Result<(), Refusal>
    ensures { FindsHighest src.now shape length dst.old dst.new directions.old directions.new scratch.old scratch.new (finished result) }
{
    // both need as much, so the shorter one speaks for both
    let room = dst.len().min(directions.len());
    tested(
        shape,
        Direction::Along,
        length,
        src.len(),
        room,
        scratch.len(),
    )?;
    highest_into(src, shape, length, dst, directions, scratch);
    Ok(())
}
