// A line's walk through its frame: the bytes of its pixels, one after the other. Gathering, scattering and claiming walk it in loops of their own, since one reads the
// frame and the others write it.
ghost use Rattle.std.specs.Prelude.{◌≡◌, true, ℕ, ◌+◌, ◌<◌};
ghost use Rattle.frame.specs.Sweep.{hit, cell, Sane, Reach};
ghost use Rattle.frame.specs.Span.{Spans};

use frame::{Sweep, Track, shift_at};

// The lines of a frame in one direction, and where one of them has its pixels.
#[derive(Clone, Copy)]
pub(crate) struct Walk {
    pub(crate) sweep: Sweep,
    pub(crate) track: Track,
    ghost sane: { Sane sweep },
    ghost spans: { Spans sweep track.index track.from track.count },
}

impl Walk {
    // The byte of the line's pixel i.
    pub(crate) fn byte(self, i: usize) -> usize
        requires { i < self.track.count }
        ensures at { result ≡ cell self.sweep self.track.index (self.track.from + i) }
        ensures within { (n : ℕ) → Reach self.sweep n → result < n }
    {
        byte_of(self.sweep, self.track.index, self.track.from + i)
    }
}

// The byte of line u's pixel at major coordinate i.
fn byte_of(s: Sweep, u: usize, i: usize) -> usize
    requires { Sane s × (i < s.majors) × (hit s u i ≡ true) }
    ensures { result ≡ cell s u i }
{
    i * s.pace + (u - shift_at(s, i)) * s.sidestep
}
