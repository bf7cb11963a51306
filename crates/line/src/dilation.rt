// The dilation of a line.
ghost use Rattle.std.specs.Prelude.{◌≡◌, ◌+◌, ◌-◌, ◌≤◌};
ghost use lib.ListN;
ghost use Rattle.answer.specs.Rules.{answer};
ghost use Rattle.answer.specs.Refusals.{counted};
ghost use Rattle.line.specs.Windows.{dilated, dilated_count};
ghost use Rattle.line.specs.Dilation.{dilate_rules, DilatesLine};

use crate::Pixel;
use crate::doubling::dilate_in_place;
use answer::{LONGEST, Refusal, is_outside};

// Rules 1, 3 and 6 for m values, with `room` bytes of destination: how many values the dilation has. m + length − 1 is tested as length against what m leaves,
// since the sum may wrap.
fn tested(m: usize, length: usize, room: usize) -> Result<usize, Refusal>
    ensures { counted result ≡ answer (dilate_rules m length room) (dilated_count m length) }
{
    Refusal::Size.when(is_outside(m, 1, LONGEST))?;
    Refusal::Size.when(LONGEST - m + 1 < length)?;
    Refusal::Length.when(is_outside(length, 1, LONGEST))?;
    let count = m + length - 1;
    Refusal::Destination(count).unless_there(room)?;
    Ok(count)
}

// The dilation into dst, which has room for just its values: they grow where they stand, with zeros behind the values of src.
fn dilated_into(src: &[Pixel], length: usize, dst: &mut [Pixel])
    requires { (1 ≤ length) × (1 ≤ lib.ListN.length src.now) × (lib.ListN.length dst.old ≡ lib.ListN.length src.now + length - 1) }
    ensures { dst.new ≡ dilated src.now length }
{
    let m = src.len();
    let count = dst.len();
    passes::copy(src, m, dst);
    passes::blacken(dst, m, count - m);
    dilate_in_place(dst, length);
}

// Dilates the values src with windows of `length` values into the front of dst. Hands back the count of values. Rules 1, 3, 6.
pub fn dilate(src: &[Pixel], length: usize, dst: &mut [Pixel]) -> Result<usize, Refusal>
    ensures { DilatesLine src.now length dst.old dst.new (counted result) }
{
    let count = tested(src.len(), length, dst.len())?;
    dilated_into(src, length, &mut dst[..count]);
    Ok(count)
}
