// A pixel for each line, where lines go abreast down the rows: the level that the line has come to on its way from row to row. Levels stand in the order of
// the lines, so a row's are side by side, and no line's level moves as the line moves aside.
ghost use Rattle.std.specs.Prelude.{ℕ, ◌+◌, ◌-◌, ◌<◌, get_or};
ghost use Rattle.lists.specs.Stores.{Filled};
ghost use Rattle.passes.specs.Passes.{op};
ghost use Rattle.rows.specs.Rows.{row_at};
ghost use Rattle.rows.specs.Down.{Down, LevelsAre, pixel_of, start_at, shifts, Takes};

use crate::Pixel;
use crate::order::Descent;
use answer::LONGEST;
use frame::{Sweep, shift_at};

// A frame has at most 4096 pixels in a row or a column, and so has fewer lines than twice as many.
pub(crate) type Levels = [Pixel; 2 * LONGEST];

// Each line's level meets the line's pixel in row i, 0 where it has none.
fn meet_levels(buf: &[Pixel], s: Sweep, i: usize, levels: &mut Levels, darker: bool)
    requires { Down s buf.now × (i < s.majors) }
    ensures { LevelsAre s (λ (u : ℕ). op darker (get_or levels.old u 0) (pixel_of s buf.now i u)) levels.new }
{
    let a = shift_at(s, i);
    passes::fade(levels, 0, a, darker);
    passes::meet_by(buf, i * s.pace, s.minors, levels, a, darker);
    passes::fade(levels, a + s.minors, s.top - a, darker);
}

impl Descent {
    // Each line's level becomes its pixel in row t.
    pub(crate) fn start_levels(self, buf: &[Pixel], t: usize, levels: &mut Levels)
        requires { Down self.sweep buf.now × (t < self.sweep.majors) }
        ensures { LevelsAre self.sweep (pixel_of self.sweep buf.now (row_at self.darker self.sweep.majors t)) levels.new }
    {
        let s = self.sweep;
        passes::blacken(levels, 0, s.minors + s.top);
        meet_levels(buf, s, self.row(t), levels, false);
    }

    // Row t, if there are so many, is met too.
    pub(crate) fn take_row(self, buf: &[Pixel], t: usize, levels: &mut Levels)
        requires { Down self.sweep buf.now }
        ensures { Takes self t buf.now levels.old levels.new }
    {
        if t < self.sweep.majors {
            meet_levels(buf, self.sweep, self.row(t), levels, self.darker);
        }
    }

    // Each pixel of row t meets its line's level.
    pub(crate) fn meet_row_by(self, levels: &Levels, t: usize, buf: &mut [Pixel])
        requires { Down self.sweep buf.old × (t < self.sweep.majors) }
        ensures { Filled buf.old buf.new (start_at self t) (start_at self t + self.sweep.minors) (λ (x : ℕ). op self.darker (get_or buf.old x 0) (get_or levels.now (shifts self t + (x - start_at self t)) 0)) }
    {
        let s = self.sweep;
        let i = self.row(t);
        passes::meet_by(
            levels,
            shift_at(s, i),
            s.minors,
            buf,
            i * s.pace,
            self.darker,
        );
    }
}
