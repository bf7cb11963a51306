// Putting values back to a line of a frame, the way back from gathering.
ghost use Rattle.std.specs.Prelude.{◌≡◌, ℕ, ◌+◌, ◌≤◌, length};
ghost use Rattle.lists.specs.Tables.{table};
ghost use Rattle.frame.specs.Sweep.{cell, Reach};
ghost use Rattle.answer.specs.Refusals.{counted};
ghost use Rattle.gathering.specs.Scattering.{stored, Scatters};

use crate::Pixel;
use crate::rules::tested;
use crate::walk::Walk;
use answer::Refusal;
use frame::{Direction, Shape, sweep_of, track_of};

// The values at the front of src, to the pixels of the line walked.
// Not inlined: behind its caller's tests the compiler takes the loop for one that seldom runs, and does not align it.
#[inline(never)]
fn copy_in(src: &[Pixel], walk: Walk, dst: &mut [Pixel])
    requires { Reach walk.sweep (length dst.old) × (walk.track.count ≤ length src.now) }
    ensures { dst.new ≡ stored (table (λ (i : ℕ). cell walk.sweep walk.track.index (walk.track.from + i)) walk.track.count) src.now dst.old }
{
    for i in 0..walk.track.count {
        let at = walk.byte(i);
        dst[at] = src[i];
    }
}

// Writes the values at the front of src to the pixels of a line of the frame dst, in line order. Hands back their count. Rules 1, 2, 5, 6.
pub fn scatter(
    src: &[Pixel],
    shape: Shape,
    d: Direction,
    line: i64,
    dst: &mut [Pixel],
) -> Result<usize, Refusal>
    ensures { Scatters src.now shape d line dst.old dst.new (counted result) }
{
    let track = track_of(shape, d, line);
    let count = tested(
        shape.is_frame(),
        track.count,
        src.len(),
        track.count,
        dst.len(),
        shape.bytes(),
    )?;
    let walk = Walk {
        sweep: sweep_of(shape, d),
        track,
    };
    copy_in(src, walk, dst);
    Ok(count)
}
