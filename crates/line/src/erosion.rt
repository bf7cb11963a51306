// The erosion of a line.
ghost use Rattle.std.specs.Prelude.{◌≡◌, ◌+◌, ◌≤◌};
ghost use lib.ListN;
ghost use Rattle.answer.specs.Limits.{longest};
ghost use Rattle.answer.specs.Rules.{answer};
ghost use Rattle.answer.specs.Refusals.{counted};
ghost use Rattle.line.specs.Windows.{eroded, eroded_count};
ghost use Rattle.line.specs.Erosion.{erode_rules, ErodesLine};

use crate::Pixel;
use crate::doubling::erode_in_place;
use answer::{LONGEST, Refusal, is_outside};

// Rules 1, 3 and 6 for a line of n pixels, with `room` bytes of destination: how many values the erosion has, none where the line is shorter than the window.
fn tested(n: usize, length: usize, room: usize) -> Result<usize, Refusal>
    ensures { counted result ≡ answer (erode_rules n length room) (eroded_count n length) }
{
    Refusal::Size.when(is_outside(n, 1, LONGEST))?;
    Refusal::Length.when(is_outside(length, 1, LONGEST))?;
    let count = (n + 1).saturating_sub(length);
    Refusal::Destination(count).unless_there(room)?;
    Ok(count)
}

// The erosion into dst, which has room for just its values, by way of `line`, which has the source's length.
fn eroded_by(src: &[Pixel], length: usize, line: &mut [Pixel], dst: &mut [Pixel])
    requires { (1 ≤ length) × (length ≤ lib.ListN.length src.now) × (lib.ListN.length line.old ≡ lib.ListN.length src.now) × (lib.ListN.length dst.old + length ≡ lib.ListN.length src.now + 1) }
    ensures { dst.new ≡ eroded src.now length }
{
    let n = src.len();
    let count = dst.len();
    passes::copy(src, n, line);
    erode_in_place(line, length);
    passes::copy(line, count, dst);
}

// The same by way of an array: the passes go over the whole line, and dst is shorter.
fn eroded_into(src: &[Pixel], length: usize, dst: &mut [Pixel])
    requires { (1 ≤ length) × (length ≤ lib.ListN.length src.now) × (lib.ListN.length src.now ≤ longest) × (lib.ListN.length dst.old + length ≡ lib.ListN.length src.now + 1) }
    ensures { dst.new ≡ eroded src.now length }
{
    let n = src.len();
    let mut line: [Pixel; LONGEST] = [0; LONGEST];
    eroded_by(src, length, &mut line[..n], dst);
}

// Erodes the line src with windows of `length` pixels into the front of dst. Hands back the count of values. Rules 1, 3, 6.
pub fn erode(src: &[Pixel], length: usize, dst: &mut [Pixel]) -> Result<usize, Refusal>
    ensures { ErodesLine src.now length dst.old dst.new (counted result) }
{
    let count = tested(src.len(), length, dst.len())?;
    if length <= src.len() {
        eroded_into(src, length, &mut dst[..count]);
    }
    Ok(count)
}
