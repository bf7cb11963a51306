// What the program stretches prints of a line, and what both programs print of a refusal.
ghost use Rattle.std.specs.Prelude.{◌≡◌, ◌*◌, ◌≤◌, nat_abs, length, take};
ghost use Rattle.answer.specs.Limits.{longest};
ghost use Rattle.bright.specs.Stretches.{stretches};
ghost use Rattle.bright.specs.Nesting.{nested, records, enclosers_of};
ghost use Rattle.text.specs.Lines.{HasRoom, Puts};
ghost use Rattle.text.specs.Stretches.{signed_text, title_text, stretch_fields, stretches_text, PrintsLine, PrintsRefusal};

use crate::Pixel;
use crate::decimal::{put_byte, put_number};
use crate::lines::{put_field, put_line};
use answer::LONGEST;
use stretch::{Stretch, begin, enclosers, next};

// The bytes of the open runs of a reading, and those that `enclosers` asks for: four a pixel of the longest line.
const RUNS: usize = 4 * LONGEST;

// Writes a line number at `at`, as `put_byte` does. Hands back where the next byte goes.
fn put_signed(dst: &mut [u8], at: usize, z: i64) -> usize
    requires { HasRoom dst.old at (length (signed_text z)) }
    ensures { Puts dst.old at (signed_text z) dst.new result }
{
    let digits = if z < 0 { put_byte(dst, at, b'-') } else { at };
    put_number(dst, digits, z.unsigned_abs())
}

// Writes the `L` line at the front, as `put_byte` does. Hands back where the next one goes.
fn put_title(dst: &mut [u8], z: i64, pixels: usize) -> usize
    requires { HasRoom dst.old 0 (length (title_text z pixels)) }
    ensures { Puts dst.old 0 (title_text z pixels) dst.new result }
{
    let letter = put_byte(dst, 0, b'L');
    let number = put_byte(dst, letter, b'\t');
    let count = put_signed(dst, number, z);
    let end = put_field(dst, count, pixels as u64);
    put_byte(dst, end, b'\n')
}

// The fields of a `Z` line: the four numbers of a stretch, and the place of its encloser.
fn stretch_fields(s: Stretch, encloser: u16) -> [u64; 5]
    ensures { result ≡ stretch_fields (nested s encloser) }
{
    [s.start, s.end, s.level, s.base, encloser].map(u64::from)
}

// Writes the `Z` lines of a line at `at`, as `put_byte` does. Hands back where the next byte goes. The places of the enclosers, in the order of the list, stand
// at the front of `places`; the reading has its open runs in `runs`.
fn put_stretches(
    dst: &mut [u8],
    at: usize,
    line: &[Pixel],
    places: &[u16],
    runs: &mut [u8],
) -> usize
    requires { (length line.now ≤ longest) × (4 * length line.now ≤ length runs.old) × (take (length (stretches line.now)) places.now ≡ enclosers_of (stretches line.now)) × HasRoom dst.old at (length (stretches_text (records (stretches line.now)))) }
    ensures { Puts dst.old at (stretches_text (records (stretches line.now))) dst.new result }
{
    let mut end = at;
    let mut bookmark = begin();
    for encloser in places {
        let Some(step) = next(line, runs, bookmark) else {
            return end;
        };
        end = put_line(dst, end, b'Z', &stretch_fields(step.stretch, *encloser));
        bookmark = step.bookmark;
    }
    end
}

// Writes what the program stretches prints of the line number z, its `L` line and its `Z` lines, to the front of dst. Hands back its bytes.
// Where the line has more than 4,096 pixels, or the text no room, it hands back 0 and changes nothing.
// Document 01 gives the text of a line no rule and no number, so the call has none either: 0 says that nothing is written, since every text has bytes.
pub fn line_text(z: i64, line: &[Pixel], dst: &mut [u8]) -> usize
    ensures { PrintsLine z line.now dst.old dst.new result }
{
    if LONGEST < line.len() {
        return 0;
    }
    let mut places = [0u16; LONGEST];
    let mut runs = [0u8; RUNS];
    // Places and scratch are enough for every line that comes so far, so they are all found.
    enclosers(line, &mut places, &mut runs);
    let title = put_title(&mut [], z, line.len());
    let bytes = put_stretches(&mut [], title, line, &places, &mut runs);
    let short = dst.len() < bytes;
    if short {
        return 0;
    }
    let end = put_title(dst, z, line.len());
    put_stretches(dst, end, line, &places, &mut runs)
}

// Writes what both programs print of a refusal to the front of dst. Hands back its bytes; where they have no room, 0, and nothing changes:
// no `Option`, as `PrintsRefusal` has it.
pub fn refusal_text(number: u64, dst: &mut [u8]) -> usize
    ensures { PrintsRefusal number dst.old dst.new result }
{
    if dst.len() < put_line(&mut [], 0, b'E', &[number]) {
        return 0;
    }
    put_line(dst, 0, b'E', &[number])
}
