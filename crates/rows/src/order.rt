// Rows in the order of a pass: from the first on, or from the last back. Either way a row's window is the row and those that come next, and one family of functions
// serves both.
ghost use Rattle.std.specs.Prelude.{◌≡◌, ℕ, ◌+◌, ◌-◌, ◌<◌, get_or};
ghost use Rattle.lists.specs.Stores.{Filled};
ghost use Rattle.passes.specs.Passes.{op};
ghost use Rattle.rows.specs.Rows.{row_at};
ghost use Rattle.rows.specs.Down.{Down, beside, start_at, shifts};

use crate::Pixel;
use crate::row::meet_row;
use frame::{Sweep, shift_at};

// Of so many rows the one that comes after t others, from the first on or from the last back.
pub(crate) fn row_at(rows: usize, t: usize, forth: bool) -> usize
    requires { t < rows }
    ensures { (result ≡ row_at forth rows t) × (result < rows) }
{
    if forth { t } else { rows - 1 - t }
}

// A pass over rows that lines go down: an erosion goes from the first row on, a dilation from the last back. The buffer and the levels are lent to each method, so
// `Down`, which says that the rows are in the buffer, is a clause of each: if a pass held them, each method would have to promise two facts more, that what is lent
// is the same after it and that the pass is.
#[derive(Clone, Copy)]
pub(crate) struct Descent {
    pub(crate) sweep: Sweep,
    pub(crate) darker: bool,
}

impl Descent {
    // The row that comes after t others.
    pub(crate) fn row(self, t: usize) -> usize
        requires { t < self.sweep.majors }
        ensures { (result ≡ row_at self.darker self.sweep.majors t) × (result < self.sweep.majors) }
    {
        row_at(self.sweep.majors, t, self.darker)
    }

    // A row meets the one that comes next.
    pub(crate) fn meet_next(self, buf: &mut [Pixel], t: usize)
        requires { Down self.sweep buf.old × (t + 1 < self.sweep.majors) }
        ensures { Filled buf.old buf.new (start_at self t) (start_at self t + self.sweep.minors) (λ (x : ℕ). op self.darker (get_or buf.old x 0) (beside buf.old (start_at self (t + 1)) self.sweep.minors (shifts self t) (shifts self (t + 1)) (x - start_at self t))) }
    {
        let s = self.sweep;
        let i = self.row(t);
        let j = self.row(t + 1);
        meet_row(
            buf,
            i * s.pace,
            s.minors,
            j * s.pace,
            shift_at(s, i),
            shift_at(s, j),
            self.darker,
        );
    }
}
