// Gathering a line of a frame.
ghost use Rattle.std.specs.Prelude.{◌≡◌, ℕ, ◌+◌, ◌≤◌, length, get_or};
ghost use Rattle.lists.specs.Tables.{table};
ghost use Rattle.lists.specs.Stores.{front};
ghost use Rattle.frame.specs.Sweep.{cell, Reach};
ghost use Rattle.answer.specs.Refusals.{counted};
ghost use Rattle.gathering.specs.Gathering.{Gathers};

use crate::Pixel;
use crate::rules::tested;
use crate::walk::Walk;
use answer::Refusal;
use frame::{Direction, Shape, sweep_of, track_of};

// The pixels of the line walked, to the front of dst.
// Not inlined: behind its caller's tests the compiler takes the loop for one that seldom runs, and does not align it.
#[inline(never)]
fn copy_out(src: &[Pixel], walk: Walk, dst: &mut [Pixel])
    requires { Reach walk.sweep (length src.now) × (walk.track.count ≤ length dst.old) }
    ensures { dst.new ≡ front (table (λ (i : ℕ). get_or src.now (cell walk.sweep walk.track.index (walk.track.from + i)) 0) walk.track.count) dst.old }
{
    for i in 0..walk.track.count {
        let at = walk.byte(i);
        dst[i] = src[at];
    }
}

// Writes the pixels of a line of the frame src, in line order, to the front of dst. Hands back their count. Rules 1, 2, 5, 6.
pub fn gather(
    src: &[Pixel],
    shape: Shape,
    d: Direction,
    line: i64,
    dst: &mut [Pixel],
) -> Result<usize, Refusal>
    ensures { Gathers src.now shape d line dst.old dst.new (counted result) }
{
    let track = track_of(shape, d, line);
    let count = tested(
        shape.is_frame(),
        track.count,
        src.len(),
        shape.bytes(),
        dst.len(),
        track.count,
    )?;
    let walk = Walk {
        sweep: sweep_of(shape, d),
        track,
    };
    copy_out(src, walk, dst);
    Ok(count)
}
