// The list of bright stretches in a lent table.
ghost use Rattle.std.specs.Prelude.{◌≡◌, length};
ghost use Rattle.answer.specs.Rules.{answer};
ghost use Rattle.answer.specs.Refusals.{counted, finished};
ghost use Rattle.bright.specs.Stretches.{stretches};
ghost use Rattle.bright.specs.Listing.{list_rules, ListsLine};

use crate::generator::begin;
use crate::nesting::{link, next_noted};
use crate::tally::count;
use crate::{Nested, Pixel};
use answer::{LONGEST, Refusal, is_outside};
use bright::Noted;

// Rules 1, 7 and 8 for a line, with `room` entries of table and `spare` bytes of scratch.
// A line has no more stretches than pixels, so they are counted only where the table has fewer entries.
fn tested(line: &[Pixel], room: usize, spare: usize) -> Result<(), Refusal>
    ensures { finished result ≡ answer (list_rules (length line.now) spare room (length (stretches line.now))) 0 }
{
    let n = line.len();
    Refusal::Size.when(is_outside(n, 1, LONGEST))?;
    Refusal::Scratch(8 * n).unless_there(spare)?;
    if room < n {
        Refusal::Table(count(line)).unless_there(room)?;
    }
    Ok(())
}

// Lists the bright stretches of a line at the front of a table, each with the place of the shortest other that encloses it. Hands back their count. Rules 1, 7, 8.
// An encloser comes later in the list: first its start is noted for its place, then the places are found from the last record down. The count is no index alone: it is
// handed back, and the table does not say how many of its entries are written.
pub fn list(line: &[Pixel], table: &mut [Nested], scratch: &mut [u8]) -> Result<usize, Refusal>
    ensures { ListsLine line.now table.old table.new scratch.old scratch.new (counted result) }
{
    tested(line, table.len(), scratch.len())?;
    let mut at = begin();
    let mut count = 0;
    while let Some(Noted { nested, bookmark }) = next_noted(line, scratch, at) {
        table[count] = nested;
        at = bookmark;
        count += 1;
    }
    for k in (0..count).rev() {
        let record = &mut table[k];
        record.encloser = link(scratch, record.stretch.start, record.encloser, k, count);
    }
    Ok(count)
}
