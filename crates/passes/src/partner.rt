// What the pixels of a row meet: others of the same buffer.
ghost use Rattle.std.specs.Prelude.{◌≡◌, cond, List, ℕ, ◌+◌, ◌≤◌, ◌<◌, eqb, length};
ghost use Rattle.passes.specs.Passes.{op, straight, bent};

use crate::Pixel;

// The darker of two pixels, or the brighter.
pub(crate) fn of_two(a: Pixel, b: Pixel, darker: bool) -> Pixel
    ensures { result ≡ op darker a b }
{
    if darker { a.min(b) } else { a.max(b) }
}

// Of two pixels the one that the mark names.
pub(crate) fn either(mark: u8, near: Pixel, far: Pixel) -> Pixel
    ensures { result ≡ cond (eqb mark 0) near far }
{
    if mark == 0 { near } else { far }
}

pub(crate) trait Partner {
    // Which pixel of a buffer pixel j of the row meets.
    ghost of: { Self → List ℕ → ℕ → ℕ };

    // Partner j is in a buffer of that many pixels.
    ghost Within: { Self → ℕ → ℕ → Type 0 };

    fn of(self, buf: &[Pixel], j: usize) -> Pixel
        requires { Within self j (length buf.now) }
        ensures { result ≡ of self buf.now j };
}

// Partners side by side, from one place on.
#[derive(Clone, Copy)]
pub(crate) struct Straight {
    pub(crate) from: usize,
}

impl Partner for Straight {
    ghost of = { λ p. straight p.from };

    ghost Within = { λ p j size. p.from + j < size };

    fn of(self, buf: &[Pixel], j: usize) -> Pixel {
        buf[self.from + j]
    }
}

// Partners in two rows: in the one that begins at `near`, or, where the mark is not 0, in the one that begins at `far`.
#[derive(Clone, Copy)]
pub(crate) struct Bent<'a> {
    pub(crate) marks: &'a [u8],
    pub(crate) near: usize,
    pub(crate) far: usize,
}

impl<'a> Partner for Bent<'a> {
    ghost of = { λ p. bent p.marks.now p.near p.far };

    ghost Within = { λ p j size. (p.near + j < size) × (p.far + j < size) × (j < length p.marks.now) };

    #[tactic(auto, unfolding(crate::specs::Passes::bent))]
    fn of(self, buf: &[Pixel], j: usize) -> Pixel {
        either(self.marks[j], buf[self.near + j], buf[self.far + j])
    }
}
