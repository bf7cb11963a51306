// A pass in a shallow direction, row by row. Rows are counted in the order in which the lines cross them, from the first on or from the last back: what a row asks
// for then stands in itself or in rows that come after it, and is as it was.
ghost use Rattle.std.specs.Prelude.{◌≡◌, ℕ, ◌+◌, ◌-◌, ◌≤◌, ◌<◌, length};
ghost use Rattle.lists.specs.Stores.{Filled};
ghost use Rattle.frame.specs.Sweep.{Sane};
ghost use Rattle.passes.specs.Passes.{op, met};
ghost use Rattle.rows.specs.Rows.{RowsAre};
ghost use Rattle.rows.specs.Slants.{Dark, DarkPast, MayRun, forth_of, start_of, near_only, partner_of, becomes};

use crate::Pixel;
use crate::order::row_at;
use frame::Sweep;

// What a pass goes by. The pixels from column `here` on meet those of their lines from column `there` on, and one of the two is 0: in an erosion pixels meet those
// further on, in a dilation those further back. What has no partner meets 0. Partners stand `step` rows on, or one more where the column is marked; where no line
// bends, there are no marks. The columns from `light` on are dark.
#[derive(Clone, Copy)]
pub(crate) struct Pass<'a> {
    pub(crate) sweep: Sweep,
    pub(crate) darker: bool,
    pub(crate) light: usize,
    pub(crate) here: usize,
    pub(crate) there: usize,
    pub(crate) step: usize,
    pub(crate) bends: Option<&'a [u8]>,
}

// The n pixels from `at` on meet those from `near` on, which stand in the last row of the count: a marked one, whose partner would stand one row further, meets 0.
fn meet_last(buf: &mut [Pixel], bends: &[u8], at: usize, near: usize, n: usize, darker: bool)
    requires { (at + n ≤ length buf.old) × (near + n ≤ length buf.old) × (1 ≤ length bends.now) × (n ≤ length bends.now) }
    ensures { Filled buf.old buf.new at (at + n) (met (op darker) (near_only bends.now near) at buf.old) }
{
    passes::meet_bent(buf, bends, at, near, at, n, darker);
    if darker {
        passes::blacken_bent(buf, bends, at, n);
    }
}

impl Pass<'_> {
    // Where row t starts. A dilation goes against the lines, so rows are counted from the first on in an erosion where lines rise, and in a dilation where they fall.
    fn start(&self, t: usize) -> usize
        requires { Sane self.now.sweep × (t < self.now.sweep.minors) }
        ensures { result ≡ start_of self.now t }
    {
        let s = self.sweep;
        row_at(s.minors, t, s.falling != self.darker) * s.sidestep
    }

    // The pixels of row t from column `here` on, as far as their partners stand in the light, meet these.
    fn meet_partners(&self, buf: &mut [Pixel], t: usize)
        requires { MayRun self.now buf.old × (t < self.now.sweep.minors) }
        ensures { Filled buf.old buf.new (start_of self.now t + self.now.here) (start_of self.now t + self.now.here + (self.now.light - self.now.there)) (met (op self.now.darker) (partner_of self.now t) (start_of self.now t + self.now.here) buf.old) }
    {
        let n = self.light - self.there;
        let left = self.sweep.minors - t;
        let at = self.start(t) + self.here;
        if left <= self.step {
            passes::fade(buf, at, n, self.darker);
            return;
        }
        let near = self.start(t + self.step) + self.there;
        match self.bends {
            None => passes::meet(buf, at, near, n, self.darker),
            Some(bends) if left == self.step + 1 => meet_last(buf, bends, at, near, n, self.darker),
            Some(bends) => {
                let far = self.start(t + (self.step + 1)) + self.there;
                passes::meet_bent(buf, bends, at, near, far, n, self.darker);
            }
        }
    }

    // Row t. Nothing is looked for in the dark, and an erosion makes those pixels dark whose partners stand there.
    fn slant(&self, buf: &mut [Pixel], t: usize)
        requires { MayRun self.now buf.old × (t < self.now.sweep.minors) × DarkPast self.now.sweep (forth_of self.now) t self.now.light buf.old }
        ensures { Filled buf.old buf.new (start_of self.now t) (start_of self.now t + self.now.sweep.majors) (λ (x : ℕ). becomes self.now buf.old t (x - start_of self.now t)) }
    {
        let n = self.light - self.there;
        self.meet_partners(buf, t);
        passes::fade(
            buf,
            self.start(t) + (self.here + n),
            self.there,
            self.darker,
        );
    }

    // All rows.
    pub(crate) fn run(&self, buf: &mut [Pixel])
        requires { MayRun self.now buf.old × Dark self.now.sweep self.now.light buf.old }
        ensures { RowsAre (start_of self.now) self.now.sweep.majors 0 self.now.sweep.minors (becomes self.now buf.old) buf.old buf.new }
    {
        for t in 0..self.sweep.minors {
            self.slant(buf, t);
        }
    }
}
