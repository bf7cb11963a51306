// The opening of a frame whose lines go down its rows.
ghost use Rattle.std.specs.Prelude.{◌≡◌, ◌≤◌};
ghost use Rattle.frame.specs.Sweep.{Accepted};
ghost use Rattle.rows.specs.Rows.{OpensLines, OpensDown};
ghost use Rattle.rows.specs.Down.{Down, swap_of, down_of};

use crate::Pixel;
use crate::clear::clear_rows;
use crate::levels::Levels;
use crate::order::Descent;
use crate::rules::can_open;
use answer::LONGEST;
use frame::{Direction, Shape, Sweep};

// The erosion, with 0 in the rows in which no window begins, and then its dilation.
fn open_lines(buf: &mut [Pixel], s: Sweep, length: usize)
    requires { Down s buf.old × (1 ≤ length) }
    ensures { OpensLines s length buf.old buf.new }
{
    if s.majors < length {
        clear_rows(buf, s.pace, s.minors, 0, s.majors);
        return;
    }
    let mut levels: Levels = [0; 2 * LONGEST];
    let erosion = Descent {
        sweep: s,
        darker: true,
    };
    let dilation = Descent {
        darker: false,
        ..erosion
    };
    erosion.meet_windows(buf, length, &mut levels);
    clear_rows(buf, s.pace, s.minors, s.majors + 1 - length, s.majors);
    dilation.meet_windows(buf, length, &mut levels);
}

// The sweep of a diagonal with its two coordinates swapped: its lines are the same pixels, and go down the rows.
fn swapped(s: Sweep) -> Sweep
    requires { 1 ≤ s.minors }
    ensures { result ≡ swap_of s }
{
    Sweep {
        majors: s.minors,
        minors: s.majors,
        pace: s.sidestep,
        sidestep: s.pace,
        top: s.minors - 1,
        ..s
    }
}

// The lines of an accepted frame in a steep direction, or in a diagonal one, as they go down the rows.
fn sweep_down(shape: Shape, d: Direction) -> Sweep
    requires { Accepted shape d }
    ensures { result ≡ down_of shape d }
{
    let s = frame::sweep_of(shape, d);
    if d.is_shallow() { swapped(s) } else { s }
}

// Opens the frame that stands in buf in a direction whose lines go down the rows: a steep one, or one of the two diagonals. Where rule 1, 2 or 5 would refuse, the
// length is 0, or the direction is flatter than a diagonal, nothing changes.
pub fn open_down(buf: &mut [Pixel], shape: Shape, d: Direction, length: usize)
    ensures { OpensDown shape d length buf.old buf.new }
{
    if can_open(shape, d, length, buf.len()) && d.goes_down() {
        open_lines(buf, sweep_down(shape, d), length);
    }
}
