// At which major coordinates a line has its pixels: by division once, so that a walk visits no others.
ghost use Rattle.std.specs.Prelude.{◌≡◌, ◌*◌, ◌≤◌, ◌<◌};
ghost use Rattle.answer.specs.Limits.{longest};
ghost use Rattle.frame.specs.Sweep.{lines, Sane};
ghost use Rattle.frame.specs.Span.{passed, skipped, track_at};

use crate::sweep::Sweep;
use crate::track::Track;

// `Sane` is a clause of each and no ghost field: `Sweep` has public fields, from which `rows` makes sweeps too, and the one without a line is not sane.
impl Sweep {
    // The first major coordinate at which a line has moved more than x aside; `majors` where there is none.
    #[tactic(auto, unfolding(crate::specs::Span::passed))]
    fn past(self, x: usize) -> usize
        requires { Sane self × (x ≤ 8 * longest) }
        ensures { result ≡ passed self.run self.rise self.majors x }
    {
        if self.rise == 0 {
            self.majors
        } else {
            self.majors
                .min(((2 * x + 1) * self.run - 1) / (2 * self.rise) + 1)
        }
    }

    // The first major coordinate at which a line has moved so far aside that with `more` it is above `most`.
    #[tactic(auto, unfolding(crate::specs::Span::skipped))]
    fn skip(self, more: usize, most: usize) -> usize
        requires { Sane self × (most ≤ 8 * longest) }
        ensures { result ≡ skipped self.run self.rise self.majors more most }
    {
        if most < more {
            0
        } else {
            self.past(most - more)
        }
    }

    // Where line u has its pixels.
    #[tactic(auto, using(crate::proofs::Shapes::top_less))]
    pub(crate) fn track(self, u: usize) -> Track
        requires { Sane self × (u < lines self) }
        ensures { result ≡ track_at self u }
    {
        let (from, end) = if self.falling {
            (self.skip(self.minors, u), self.past(u))
        } else {
            (self.skip(u + 1, self.top), self.past(self.lines() - u - 1))
        };
        Track {
            index: u,
            from,
            count: end - from,
        }
    }
}
