// A line claimed for a number: where its values are above the best so far they become the best, and the number is stored as their holder.
ghost use Rattle.std.specs.Prelude.{◌≡◌, ℕ, ◌+◌, ◌≤◌, length};
ghost use Rattle.lists.specs.Tables.{table};
ghost use Rattle.frame.specs.Sweep.{cell, Reach, Apart};
ghost use Rattle.gathering.specs.Claiming.{claims, raised, held, ClaimsLine};

use crate::Pixel;
use crate::walk::Walk;
use frame::{Direction, Shape, sweep_of, track_of};

// Who holds a pixel. The crate `passes` has the same line for rows of pixels; this crate does not stand on it, and one line is no reason to.
fn claimed(best: Pixel, new: Pixel, number: u8, holder: u8) -> u8
    ensures { result ≡ claims best number new holder }
{
    if best < new { number } else { holder }
}

// The values at the front of `values` against the best of the walked line's pixels. Both frames are written each turn: nothing to guess.
fn claim_in(values: &[Pixel], number: u8, walk: Walk, best: &mut [Pixel], holders: &mut [u8])
    requires { Apart walk.sweep × Reach walk.sweep (length best.old) × Reach walk.sweep (length holders.old) × (walk.track.count ≤ length values.now) }
    ensures { (best.new ≡ raised (table (λ (i : ℕ). cell walk.sweep walk.track.index (walk.track.from + i)) walk.track.count) values.now best.old) × (holders.new ≡ held number (table (λ (i : ℕ). cell walk.sweep walk.track.index (walk.track.from + i)) walk.track.count) values.now best.old holders.old) }
{
    for i in 0..walk.track.count {
        let at = walk.byte(i);
        let old = best[at];
        let value = values[i];
        holders[at] = claimed(old, value, number, holders[at]);
        // in this order `max` asks what `claimed` does, and no branch is made of it
        best[at] = value.max(old);
    }
}

// Where a value, of those at the front of `values` in line order, is above the best at its pixel of a line, it takes its place, and the pixel's holder becomes
// the number: a tie leaves it to its holder. `best` and `holders` are frames of this shape. Nothing changes where rule 1, 2 or 5 refuses, or one of the two is
// too short. The two are slices apart, not one of pairs, since the destinations of `opening::highest` are.
pub fn claim(
    values: &[Pixel],
    number: u8,
    shape: Shape,
    d: Direction,
    line: i64,
    best: &mut [Pixel],
    holders: &mut [u8],
)
    ensures { ClaimsLine values.now number shape d line best.old best.new holders.old holders.new }
{
    let track = track_of(shape, d, line);
    let needed = shape.bytes();
    if track.count == 0
        || values.len() < track.count
        || best.len() < needed
        || holders.len() < needed
    {
        return;
    }
    let walk = Walk {
        sweep: sweep_of(shape, d),
        track,
    };
    claim_in(values, number, walk, best, holders);
}
