// Size sums of a frame in a direction: those of its lines by pixels, added up, and then by length.
ghost use Rattle.std.specs.Prelude.{◌≡◌, ℕ, slice_index, ◌+◌, ◌-◌, ◌*◌, ◌≤◌, ◌<◌, min, max, length, take};
ghost use Rattle.lists.specs.Tables.{table};
ghost use Rattle.answer.specs.Limits.{longest};
ghost use Rattle.answer.specs.Rules.{answer};
ghost use Rattle.answer.specs.Refusals.{finished};
ghost use Rattle.frame.specs.Lines.{line_count};
ghost use Rattle.frame.specs.Shape.{scratch_for};
ghost use Rattle.sizes.specs.Sums.{sums_of, line_at, pixel_sum, frame_sums};
ghost use Rattle.sizes.specs.Frame.{frame_rules, SumsFrame};
ghost use Rattle.sizes.specs.Steps.{Modest, Adds, Whole, Measured, spread_to};

use crate::Pixel;
use crate::lines::add_line;
use answer::{LONGEST, Refusal, is_outside};
use frame::{Direction, Shape, line_number, lines_of};
use gathering::{gather, row};

// Rules 1, 2, 4, 5 and 7 for a frame of `size` bytes, with `entries` sums and `spare` bytes of scratch.
pub(crate) fn tested(
    shape: Shape,
    d: Direction,
    entries: usize,
    size: usize,
    spare: usize,
) -> Result<(), Refusal>
    ensures { finished result ≡ answer (frame_rules shape d entries size spare) 0 }
{
    Refusal::Size.when(!shape.is_frame())?;
    Refusal::Direction.when(!d.is_direction())?;
    Refusal::Sums.when(is_outside(entries, 2, LONGEST + 1))?;
    Refusal::Source(shape.bytes()).unless_there(size)?;
    Refusal::Scratch(shape.scratch()).unless_there(spare)
}

// A frame seen in a direction, whose lines rules 1, 2 and 5 accept. Sums and scratch are lent beside it: one step takes a part of the sums, the next all of them.
#[derive(Clone, Copy)]
pub(crate) struct View<'a> {
    pub src: &'a [Pixel],
    pub shape: Shape,
    pub d: Direction,
    ghost whole: { Whole shape d (length src.now) },
    ghost bytes: { (i : ℕ) → slice_index src.now i < 256 },
}

impl View<'_> {
    // The pixels of line u, counted from the first, to the front of `pixels`. Hands back their count.
    fn take_line(&self, u: usize, pixels: &mut [Pixel]) -> usize
        requires { (u < line_count self.now.shape self.now.d) × (length pixels.old ≡ longest) }
        ensures { (result ≤ longest) × (take result pixels.new ≡ line_at self.now.src.now self.now.shape self.now.d u) }
    {
        let line = line_number(self.shape, self.d, u);
        gather(self.src, self.shape, self.d, line, pixels).unwrap()
    }

    // Adds bins and rest of line u, counted from the first, in any direction. It is gathered into an array: two parts of one scratch cannot be lent at once.
    fn add_gathered(&self, u: usize, sums: &mut [u64], scratch: &mut [u8])
        requires { (u < line_count self.now.shape self.now.d) × (scratch_for self.now.shape ≤ length scratch.old) × (1 ≤ length sums.old) × Modest sums.old }
        ensures { Adds (line_at self.now.src.now self.now.shape self.now.d u) sums.old sums.new }
    {
        let mut pixels: [Pixel; LONGEST] = [0; LONGEST];
        let n = self.take_line(u, &mut pixels);
        add_line(&pixels[..n], sums, scratch);
    }

    // Adds bins and rest of line u, counted from the first. Along, that is row u: it is read where it stands.
    fn add_line_of(&self, u: usize, sums: &mut [u64], scratch: &mut [u8])
        requires { (u < line_count self.now.shape self.now.d) × (scratch_for self.now.shape ≤ length scratch.old) × (1 ≤ length sums.old) × Modest sums.old }
        ensures { Adds (line_at self.now.src.now self.now.shape self.now.d u) sums.old sums.new }
    {
        if self.d.q == 0 {
            add_line(row(self.src, self.shape, u), sums, scratch);
        } else {
            self.add_gathered(u, sums, scratch);
        }
    }

    // Bins and rest by pixels: the slice is cleared, and one line after the other added.
    fn set_by_pixels(&self, sums: &mut [u64], scratch: &mut [u8])
        requires { (scratch_for self.now.shape ≤ length scratch.old) × (1 ≤ length sums.old) }
        ensures { sums.new ≡ sums_of (pixel_sum self.now.src.now self.now.shape self.now.d) (length sums.old - 1) }
    {
        sums.fill(0);
        for u in 0..lines_of(self.shape, self.d).count {
            self.add_line_of(u, sums, scratch);
        }
    }

    // Bins and rest, in a slanted direction or any other, by a table of the pixels that each length stands for, so that no stretch is measured. The last length has
    // the most: as many entries are enough for bins and rest by pixels.
    fn set_slanted(&self, sums: &mut [u64], scratch: &mut [u8])
        requires { (scratch_for self.now.shape ≤ length scratch.old) × (1 ≤ length sums.old) × (length sums.old ≤ longest + 1) }
        ensures { sums.new ≡ frame_sums self.now.src.now self.now.shape self.now.d (length sums.old - 1) }
    {
        let mut table = [0u16; LONGEST + 1];
        let counts = &mut table[..sums.len()];
        self.d.count_lengths(counts);
        let most = usize::from(counts[counts.len() - 1]);
        self.set_by_pixels(&mut sums[..most], scratch);
        spread(counts, sums);
    }

    // How many of so many entries may have light, in whatever direction: a length of two longer sides stands for more pixels than a line has.
    fn entries_with_light(&self, entries: usize) -> usize
        ensures { result ≡ min entries (2 * max self.now.shape.width self.now.shape.height) }
    {
        entries.min(2 * self.shape.width.max(self.shape.height))
    }

    // Bins and rest. Where a length counts pixels, those by pixels are those by length. Elsewhere only the lengths that may have light go into the table, so that a
    // small frame does not pay for many bins.
    pub(crate) fn set_sums(&self, sums: &mut [u64], scratch: &mut [u8])
        requires { (scratch_for self.now.shape ≤ length scratch.old) × (1 ≤ length sums.old) × (length sums.old ≤ longest + 1) }
        ensures { sums.new ≡ frame_sums self.now.src.now self.now.shape self.now.d (length sums.old - 1) }
    {
        if self.d.is_straight() {
            self.set_by_pixels(sums, scratch);
            return;
        }
        let n = self.entries_with_light(sums.len());
        self.set_slanted(&mut sums[..n], scratch);
        sums[n..].fill(0);
    }
}

// Bins and rest by pixels, at the front of the slice, become those by length: from the last length down, each takes the entry of its count of pixels. Of two
// lengths that share a count the longer takes it, and 0 is left for the other.
fn spread(counts: &[u16], sums: &mut [u64])
    requires { Measured counts.now (length sums.old) }
    ensures { sums.new ≡ table (spread_to counts.now sums.old) (length sums.old) }
{
    let mut taken = 0;
    for i in (0..sums.len()).rev() {
        let count = usize::from(counts[i]);
        sums[i] = if count == taken { 0 } else { sums[count - 1] };
        taken = count;
    }
}

// Bins and rest of a frame's lines in a direction, the rest last: as many bins as `sums` has entries before its last, the first for what is as long as a pixel along a
// row. Rules 1, 2, 4, 5, 7.
pub fn sums_of_frame(
    src: &[Pixel],
    shape: Shape,
    d: Direction,
    sums: &mut [u64],
    scratch: &mut [u8],
) -> Result<(), Refusal>
    ensures { SumsFrame src.now shape d sums.old sums.new scratch.old scratch.new (finished result) }
{
    tested(shape, d, sums.len(), src.len(), scratch.len())?;
    let view = View { src, shape, d };
    view.set_sums(sums, scratch);
    Ok(())
}
