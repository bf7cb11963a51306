// The lines that a frame has in a direction, and their numbers.
ghost use Rattle.std.specs.Prelude.{◌≡◌};
ghost use Rattle.frame.specs.Lines.{lines_of, line_number};

use crate::direction::Direction;
use crate::shape::Shape;
use crate::sweep::accepted;

// The number of the first line, and how many lines there are: their numbers ascend by one.
#[derive(Clone, Copy, PartialEq, Eq, Debug)]
pub struct Lines {
    pub first: i64,
    pub count: usize,
}

// The lines of a frame in a direction; none where rule 1 or 2 refuses them.
// Not an `Option`, since `lines_of` of specs/Lines answers every frame and direction.
#[tactic(auto, using(crate::proofs::Shapes::sane_of, crate::proofs::Shapes::low_less, crate::proofs::Signs::negation_fits))]
pub fn lines_of(shape: Shape, d: Direction) -> Lines
    ensures { result ≡ lines_of shape d }
{
    match accepted(shape, d) {
        Some(s) => Lines {
            first: -(s.low() as i64),
            count: s.lines(),
        },
        None => Lines { first: 0, count: 0 },
    }
}

// The number of line u, counted from the first; 0 where there is no such line.
// Not an `Option`, since `line_number` of specs/Lines gives every u a number.
pub fn line_number(shape: Shape, d: Direction, u: usize) -> i64
    ensures { result ≡ line_number shape d u }
{
    let lines = lines_of(shape, d);
    if u < lines.count {
        lines.first + u as i64
    } else {
        0
    }
}
