// Size sums of a line.
ghost use Rattle.std.specs.Prelude.{◌≡◌, ℕ, ◌*◌, ◌≤◌, ◌<◌, ◌^◌, length, get_or};
ghost use Rattle.answer.specs.Limits.{longest};
ghost use Rattle.answer.specs.Rules.{answer};
ghost use Rattle.answer.specs.Refusals.{finished};
ghost use Rattle.sizes.specs.Line.{line_rules, SumsLine};
ghost use Rattle.sizes.specs.Steps.{entry_of, lit, Sound, Modest, Adds};

use crate::Pixel;
use answer::{LONGEST, Refusal, is_outside};
use stretch::{Stretch, begin, next};

// The entry of a stretch of `length` pixels, where the rest is entry `last`: its length's bin, or the rest.
fn entry_of(length: u64, last: usize) -> usize
    requires { (1 ≤ length) × (length ≤ longest) }
    ensures { result ≡ entry_of last length }
{
    ((length - 1) as usize).min(last)
}

// Adds the light of a stretch to its entry.
fn add_light(sums: &mut [u64], s: Stretch)
    requires { Sound s × (1 ≤ length sums.old) × ((j : ℕ) → get_or sums.old j 0 ≤ 2 ^ 63) }
    ensures { sums.new ≡ lit sums.old s }
{
    let length = u64::from(s.end) - u64::from(s.start);
    let i = entry_of(length, sums.len() - 1);
    sums[i] += length * (u64::from(s.level) - u64::from(s.base));
}

// Adds bins and rest of a line to a sums slice, in one pass over its stretches: the time does not depend on how many bins there are.
pub(crate) fn add_line(line: &[Pixel], sums: &mut [u64], scratch: &mut [u8])
    requires { (length line.now ≤ longest) × (4 * length line.now ≤ length scratch.old) × (1 ≤ length sums.old) × Modest sums.old }
    ensures { Adds line.now sums.old sums.new }
{
    let mut at = begin();
    while let Some(step) = next(line, scratch, at) {
        at = step.bookmark;
        add_light(sums, step.stretch);
    }
}

// Rules 1, 4 and 7 for a line of n pixels, with `entries` sums and `spare` bytes of scratch.
fn tested(n: usize, entries: usize, spare: usize) -> Result<(), Refusal>
    ensures { finished result ≡ answer (line_rules n entries spare) 0 }
{
    Refusal::Size.when(is_outside(n, 1, LONGEST))?;
    Refusal::Sums.when(is_outside(entries, 2, LONGEST + 1))?;
    Refusal::Scratch(8 * n).unless_there(spare)
}

// Bins and rest of a line, the rest last: as many bins as `sums` has entries before its last. Rules 1, 4, 7.
pub fn sums_of_line(line: &[Pixel], sums: &mut [u64], scratch: &mut [u8]) -> Result<(), Refusal>
    ensures { SumsLine line.now sums.old sums.new scratch.old scratch.new (finished result) }
{
    tested(line.len(), sums.len(), scratch.len())?;
    sums.fill(0);
    add_line(line, sums, scratch);
    Ok(())
}
