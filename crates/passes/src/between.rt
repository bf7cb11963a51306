// Pixels of one slice that meet, or claim, those of another.
ghost use Rattle.std.specs.Prelude.{◌≡◌, cond, ℕ, ◌+◌, ◌-◌, ◌≤◌, max, ltb, length, get_or};
ghost use Rattle.lists.specs.Stores.{Filled};
ghost use Rattle.passes.specs.Passes.{op, straight, MeetsBy, Claims};

use crate::Pixel;
use crate::partner::of_two;
use crate::pass::is_within;

// Not over a `zip`: of what such a loop writes through `iter_mut` a proof knows only the length.
fn meet_row(row: &mut [Pixel], partners: &[Pixel], darker: bool)
    requires { length row.old ≡ length partners.now }
    ensures { Filled row.old row.new 0 (length row.old) (λ (k : ℕ). op darker (get_or row.old k 0) (get_or partners.now k 0)) }
{
    for (i, pixel) in row.iter_mut().enumerate() {
        *pixel = of_two(*pixel, partners[i], darker);
    }
}

// Each of the n pixels of dst from `at` on meets its partner among those of src from `from` on. Where they are not all there, nothing changes.
pub fn meet_by(src: &[Pixel], from: usize, n: usize, dst: &mut [Pixel], at: usize, darker: bool)
    ensures { MeetsBy darker src.now from n at dst.old dst.new }
{
    if is_within(src.len(), from, n) && is_within(dst.len(), at, n) {
        meet_row(&mut dst[at..at + n], &src[from..from + n], darker);
    }
}

// Of its own, as `of_two` is: both bytes are read before the test and one is stored either way, so that the loop compiles to vector instructions.
fn claimed(best: Pixel, new: Pixel, number: u8, holder: u8) -> u8
    ensures { result ≡ cond (ltb best new) number holder }
{
    if best < new { number } else { holder }
}

fn claim_row(new: &[Pixel], number: u8, best: &mut [Pixel], holders: &mut [u8])
    requires { (length best.old ≡ length new.now) × (length holders.old ≡ length new.now) }
    ensures best { Filled best.old best.new 0 (length new.now) (λ (k : ℕ). max (get_or best.old k 0) (get_or new.now k 0)) }
    ensures holders { Filled holders.old holders.new 0 (length new.now) (λ (k : ℕ). cond (ltb (get_or best.old k 0) (get_or new.now k 0)) number (get_or holders.old k 0)) }
{
    for (i, value) in new.iter().enumerate() {
        let old = best[i];
        holders[i] = claimed(old, *value, number, holders[i]);
        best[i] = of_two(old, *value, false);
    }
}

// Each of the n pixels of `new` from `from` on against the best so far, those of `best` from `at` on: where it is above, it takes its place, and the pixel's
// holder becomes the number; a tie leaves it to its holder. Where they are not all there, nothing changes.
pub fn claim(
    new: &[Pixel],
    from: usize,
    n: usize,
    number: u8,
    best: &mut [Pixel],
    holders: &mut [u8],
    at: usize,
)
    ensures { Claims new.now from n number at best.old best.new holders.old holders.new }
{
    if is_within(new.len(), from, n)
        && is_within(best.len(), at, n)
        && is_within(holders.len(), at, n)
    {
        claim_row(
            &new[from..from + n],
            number,
            &mut best[at..at + n],
            &mut holders[at..at + n],
        );
    }
}
