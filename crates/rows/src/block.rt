// Rows by blocks of as many as a window has. Within a block each row meets the next one, from the last on back: then it holds its window's part in the block. The
// part behind the block comes from the levels, which take a row of the next block for each row of this one.
ghost use Rattle.std.specs.Prelude.{ℕ, ◌+◌, ◌-◌, ◌≤◌, ◌<◌, min, get_or};
ghost use Rattle.passes.specs.Passes.{op};
ghost use Rattle.rows.specs.Rows.{RowsAre};
ghost use Rattle.rows.specs.Down.{Down, start_at, shifts, extreme_of, beyond, WindowsMet};

use crate::Pixel;
use crate::levels::Levels;
use crate::order::Descent;

impl Descent {
    // Each row from `from` up to, not including, `end` meets those that come next before `end`.
    fn run_back(self, buf: &mut [Pixel], from: usize, end: usize)
        requires { Down self.sweep buf.old × (from < end) × (end ≤ self.sweep.majors) }
        ensures { RowsAre (start_at self) self.sweep.minors from end (λ (t k : ℕ). extreme_of self buf.old (k + shifts self t) t (end - 1 - t)) buf.old buf.new }
    {
        for t in (from..end - 1).rev() {
            self.meet_next(buf, t);
        }
    }

    // Each row of the block from `from` on, but the first, meets the part of its window that is behind the block, as far as there are rows.
    fn run_on(self, buf: &mut [Pixel], from: usize, size: usize, levels: &mut Levels)
        requires { Down self.sweep buf.old × (2 ≤ size) × (from + size < self.sweep.majors) }
        ensures { RowsAre (start_at self) self.sweep.minors (from + 1) (from + size) (λ (t k : ℕ). op self.darker (get_or buf.old (start_at self t + k) 0) (beyond self buf.old size (from + size) t (k + shifts self t))) buf.old buf.new }
    {
        let end = from + size;
        self.start_levels(buf, end, levels);
        for t in from + 1..end - 1 {
            self.meet_row_by(levels, t, buf);
            self.take_row(buf, t + size, levels);
        }
        self.meet_row_by(levels, end - 1, buf);
    }

    // Each row of the block from `from` on meets those that come next in its window, as far as there are rows.
    fn meet_block(self, buf: &mut [Pixel], from: usize, size: usize, levels: &mut Levels)
        requires { Down self.sweep buf.old × (1 ≤ size) × (size ≤ self.sweep.majors) × (from < self.sweep.majors) }
        ensures { WindowsMet self size from (min (from + size) self.sweep.majors) buf.old buf.new }
    {
        let end = (from + size).min(self.sweep.majors);
        self.run_back(buf, from, end);
        if 1 < size && end < self.sweep.majors {
            self.run_on(buf, from, size, levels);
        }
    }

    // Each row meets those that come next in its window of `size` rows, as far as there are rows.
    pub(crate) fn meet_windows(self, buf: &mut [Pixel], size: usize, levels: &mut Levels)
        requires { Down self.sweep buf.old × (1 ≤ size) × (size ≤ self.sweep.majors) }
        ensures { WindowsMet self size 0 self.sweep.majors buf.old buf.new }
    {
        for from in (0..self.sweep.majors).step_by(size) {
            self.meet_block(buf, from, size, levels);
        }
    }
}
