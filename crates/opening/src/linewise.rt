// A frame, line by line: with the least scratch, a line is gathered and opened where it stands, in an array of its own.
ghost use Rattle.std.specs.Prelude.{◌≡◌, ◌≤◌, ◌<◌, pos, ◌+ℤ◌};
ghost use lib.ListN;
ghost use Rattle.answer.specs.Limits.{longest};
ghost use Rattle.frame.specs.Lines.{first_line, line_count};
ghost use Rattle.frame.specs.Shape.{needed};
ghost use Rattle.frame.specs.Sweep.{Accepted};
ghost use Rattle.opening.specs.Steps.{LineOpened};

use crate::Pixel;
use frame::{Direction, Shape};

// Line u of the frame src, counted from the first, is opened at the front of `values`. Hands back its number.
pub(crate) fn opened_line(
    src: &[Pixel],
    shape: Shape,
    d: Direction,
    u: usize,
    length: usize,
    values: &mut [Pixel],
) -> i64
    requires { Accepted shape d × (u < line_count shape d) × (1 ≤ length) × (needed shape ≤ lib.ListN.length src.now) × (longest ≤ lib.ListN.length values.old) }
    ensures { (result ≡ first_line shape d +ℤ pos u) × LineOpened src.now shape d length (first_line shape d +ℤ pos u) values.new }
{
    let line = frame::line_number(shape, d, u);
    let count = gathering::gather(src, shape, d, line, values).unwrap();
    line::open_in_place(&mut values[..count], length);
    line
}
