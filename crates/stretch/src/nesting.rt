// Which stretch of the list encloses which. A run that ends leaves on top the run that goes on to be the shortest other stretch around it, so that the start of its encloser
// is known at once. Its place is not: it comes later in the list. From the last record down it is the latest one seen that starts there.
ghost use Rattle.std.specs.Prelude.{◌≡◌, ◌+◌, ◌*◌, ◌≤◌, ◌<◌, length};
ghost use Rattle.answer.specs.Limits.{longest};
ghost use Rattle.bright.specs.Generator.{run8};
ghost use Rattle.bright.specs.Nesting.{can_nest, NestsLine};
ghost use Rattle.bright.specs.Steps.{Notes, Links, NotesAll};

use crate::generator::{begin, next};
use crate::runs::{pair_at, put_pair, top_start};
use crate::{Bookmark, Nested, Pixel, Step};
use answer::LONGEST;
use bright::Noted;

// The next stretch of a line, with the start of its encloser noted: that of the run then on top. Inlined, as `next` is.
#[inline(always)]
pub(crate) fn next_noted(line: &[Pixel], scratch: &mut [u8], at: Bookmark) -> Option<Noted>
    ensures { Notes run8 line.now scratch.old at scratch.new result }
{
    let Step { stretch, bookmark } = next(line, scratch, at)?;
    let encloser = top_start(scratch, bookmark.depth);
    Some(Noted {
        nested: Nested { stretch, encloser },
        bookmark,
    })
}

// The encloser's place of the record at `place` of `count`, which starts at `start` and whose encloser starts at `outer`. The scratch has for each start the place of the latest
// record seen there, two bytes each; now this one is seen.
pub(crate) fn link(scratch: &mut [u8], start: u16, outer: u16, place: usize, count: usize) -> u16
    requires { (2 * start + 2 ≤ length scratch.old) × (2 * outer + 2 ≤ length scratch.old) × (place < count) × (count ≤ longest) }
    ensures { Links scratch.old start outer place count scratch.new result }
{
    let here = place as u16;
    let seen = pair_at(scratch, 2 * usize::from(outer));
    put_pair(scratch, 2 * usize::from(start), here);
    if place + 1 == count { here } else { seen }
}

// Notes the start of every stretch of a line, in the order of the list, and that of its encloser. Hands back how many there are.
// The count is handed back, so no loop over the places counts for it. Two arrays, not one of pairs: `outers` are the caller's places, which hold the starts until each is linked.
fn note_all(line: &[Pixel], starts: &mut [u16], outers: &mut [u16], scratch: &mut [u8]) -> usize
    requires { (length line.now ≤ longest) × (length line.now ≤ length starts.old) × (length line.now ≤ length outers.old) × (4 * length line.now ≤ length scratch.old) }
    ensures { NotesAll line.now starts.old outers.old scratch.old starts.new outers.new scratch.new result }
{
    let mut at = begin();
    let mut count = 0;
    while let Some(Noted { nested, bookmark }) = next_noted(line, scratch, at) {
        starts[count] = nested.stretch.start;
        outers[count] = nested.encloser;
        at = bookmark;
        count += 1;
    }
    count
}

// Whether a line of n pixels can be nested into `room` places with `spare` bytes of scratch.
fn can_nest(n: usize, room: usize, spare: usize) -> bool
    ensures { result ≡ can_nest n room spare }
{
    n <= LONGEST && n <= room && 4 * n <= spare
}

// The place of the encloser of each stretch of a line, in the order of the list, for those who read the stretches one after the other. Hands back how many there are.
// With more than 4,096 pixels, fewer places than pixels, or fewer than 4 bytes of scratch a pixel it hands back 0 and changes nothing.
// A count, not an Option of one: it is how many places are written, and to who reads those a line with none is like a line that cannot be nested.
pub fn enclosers(line: &[Pixel], places: &mut [u16], scratch: &mut [u8]) -> usize
    ensures { NestsLine line.now places.old places.new scratch.old scratch.new result }
{
    if !can_nest(line.len(), places.len(), scratch.len()) {
        return 0;
    }
    let mut starts = [0u16; LONGEST];
    let count = note_all(line, &mut starts, places, scratch);
    for k in (0..count).rev() {
        places[k] = link(scratch, starts[k], places[k], k, count);
    }
    count
}
