// Where a line has its pixels, by its number.
ghost use Rattle.std.specs.Prelude.{◌≡◌, ◌≤◌};
ghost use Rattle.answer.specs.Limits.{longest};
ghost use Rattle.frame.specs.Span.{Indexed, track_of};

use crate::direction::Direction;
use crate::shape::Shape;
use crate::sweep::accepted;

// A line's index, its first major coordinate, and how many pixels it has.
#[derive(Clone, Copy, PartialEq, Eq, Debug)]
pub struct Track {
    pub index: usize,
    pub from: usize,
    pub count: usize,
}

// What `track_of` hands back where there is no such line: no pixels. Not an `Option`, since `no_track` of specs/Span says so.
const NOWHERE: Track = Track {
    index: 0,
    from: 0,
    count: 0,
};

// The index of a line's number, where the lowest number is `low` below 0; none where the number is below the lowest.
fn index_of(low: usize, line: i64) -> Option<usize>
    requires { low ≤ longest }
    ensures { Indexed low line result }
{
    low.checked_add_signed(line as isize)
}

// Where line number `line` of a frame is; without pixels where the frame has no such line, or rule 1 or 2 refuses.
#[tactic(auto, using(crate::proofs::Shapes::sane_of, crate::proofs::Shapes::low_less))]
pub fn track_of(shape: Shape, d: Direction, line: i64) -> Track
    ensures { result ≡ track_of shape d line }
{
    let Some(s) = accepted(shape, d) else {
        return NOWHERE;
    };
    match index_of(s.low(), line) {
        Some(u) if u < s.lines() => s.track(u),
        _ => NOWHERE,
    }
}
