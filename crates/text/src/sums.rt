// The sums text: what the program sums prints.
ghost use Rattle.std.specs.Prelude.{◌≡◌, ◌≤◌, length};
ghost use Rattle.answer.specs.Refusals.{counted};
ghost use Rattle.text.specs.Lines.{HasRoom, Puts};
ghost use Rattle.text.specs.Sums.{sums_text, WritesSums};

use crate::lines::put_line;
use answer::{LONGEST, Refusal, is_outside};

// Writes the whole text at the front, as `put_byte` does. Hands back its bytes.
#[inline(always)]
fn put_sums(dst: &mut [u8], direction: usize, sums: &[u64]) -> usize
    requires { (1 ≤ length sums.now) × HasRoom dst.old 0 (length (sums_text direction sums.now)) }
    ensures { Puts dst.old 0 (sums_text direction sums.now) dst.new result }
{
    let bins = sums.len() - 1;
    let mut next = put_line(dst, 0, b'G', &[direction as u64, bins as u64]);
    for i in 0..bins {
        next = put_line(dst, next, b'B', &[i as u64 + 1, sums[i]]);
    }
    put_line(dst, next, b'T', &[sums[bins]])
}

// Writes what the program sums prints, from a direction number and bins and rest, to the front of dst. Hands back its bytes. Rules 2, 4, 6.
pub fn sums_text(direction: usize, sums: &[u64], dst: &mut [u8]) -> Result<usize, Refusal>
    ensures { WritesSums direction sums.now dst.old dst.new (counted result) }
{
    Refusal::Direction.when(15 < direction)?;
    Refusal::Sums.when(is_outside(sums.len(), 2, LONGEST + 1))?;
    let bytes = put_sums(&mut [], direction, sums);
    Refusal::Destination(bytes).unless_there(dst.len())?;
    Ok(put_sums(dst, direction, sums))
}
