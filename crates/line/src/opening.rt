// The opening of a line.
ghost use Rattle.std.specs.Prelude.{◌≡◌, ◌≤◌};
ghost use lib.ListN;
ghost use Rattle.answer.specs.Rules.{answer};
ghost use Rattle.answer.specs.Refusals.{finished};
ghost use Rattle.line.specs.Windows.{opened};
ghost use Rattle.line.specs.Opening.{open_rules, OpensLine};

use crate::Pixel;
use crate::doubling::open_in_place;
use answer::{LONGEST, Refusal, is_outside};

// Rules 1, 3, 6 and 7 for a line of n pixels, with `room` bytes of destination and `spare` of scratch.
fn tested(n: usize, length: usize, room: usize, spare: usize) -> Result<(), Refusal>
    ensures { finished result ≡ answer (open_rules n length room spare) 0 }
{
    Refusal::Size.when(is_outside(n, 1, LONGEST))?;
    Refusal::Length.when(is_outside(length, 1, LONGEST))?;
    Refusal::Destination(n).unless_there(room)?;
    Refusal::Scratch(8 * n).unless_there(spare)
}

// The opening into dst, which has the line's length.
fn opened_into(src: &[Pixel], length: usize, dst: &mut [Pixel])
    requires { (1 ≤ length) × (lib.ListN.length dst.old ≡ lib.ListN.length src.now) }
    ensures { dst.new ≡ opened src.now length }
{
    let n = src.len();
    passes::copy(src, n, dst);
    open_in_place(dst, length);
}

// Opens the line src with windows of `length` pixels into the front of dst. Rules 1, 3, 6, 7.
pub fn open_line(
    src: &[Pixel],
    length: usize,
    dst: &mut [Pixel],
    scratch: &mut [u8],
) -> Result<(), Refusal>
    ensures { OpensLine src.now length dst.old dst.new scratch.old scratch.new (finished result) }
{
    let n = src.len();
    tested(n, length, dst.len(), scratch.len())?;
    opened_into(src, length, &mut dst[..n]);
    Ok(())
}
