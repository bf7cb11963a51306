// The bright stretches one after the other, in one reading of the line. Each step reads on until a run ends: the pixels that end none cost one comparison each.
// Line, scratch and bookmark go from part to part as they are lent: a struct of the three would have each contract say, too, that line and loan stay the same.
ghost use Rattle.std.specs.Prelude.{◌≡◌, cond, ◌+◌, ◌≤◌, ◌<◌, ltb, length};
ghost use Rattle.answer.specs.Limits.{longest};
ghost use Rattle.bright.specs.Generator.{beginning, is_ready, run8, Follows};
ghost use Rattle.bright.specs.Steps.{Ready, Begins, Climbs, Closes, Ends, Falls, Finds};

use crate::runs::{pair_at, put, top_level};
use crate::{Bookmark, Pixel, Step, Stretch};
use answer::LONGEST;

// Where a reading begins.
pub fn begin() -> Bookmark
    ensures { result ≡ beginning }
{
    Bookmark { read: 0, depth: 0 }
}

// Whether a reading of n pixels can stand at a bookmark, with `room` bytes of scratch.
fn is_ready(n: usize, room: usize, at: Bookmark) -> bool
    ensures { result ≡ is_ready n room at }
{
    n <= LONGEST && 4 * n <= room && at.read <= n && at.depth <= at.read
}

// Where no run is open, the next pixel opens one, whatever its level. Two tests: joined to one they cost a line a third of its time more.
fn open_first(line: &[Pixel], scratch: &mut [u8], at: Bookmark) -> Bookmark
    requires { Ready line.now scratch.old at }
    ensures { Begins run8 line.now scratch.old at scratch.new result }
{
    if at.depth != 0 {
        return at;
    }
    if at.read == line.len() {
        return at;
    }
    put(scratch, 0, at.read as u16, line[at.read]);
    Bookmark {
        read: at.read + 1,
        depth: 1,
    }
}

// How many runs are open after a pixel v, which the topmost of `depth`, at `top`, is not brighter than.
fn grown(depth: usize, top: Pixel, v: Pixel) -> usize
    requires { depth ≤ longest }
    ensures { result ≡ cond (ltb top v) (depth + 1) depth }
{
    if top < v { depth + 1 } else { depth }
}

// Reads on over the pixels that end no run: one that outshines the topmost opens another. Each is stored above the stack, whether it opens a run or not:
// a store costs less than a branch that is guessed wrong. How many are read is counted beside the slice: a loop over places takes longer.
fn climb(line: &[Pixel], scratch: &mut [u8], at: Bookmark) -> Bookmark
    requires { Ready line.now scratch.old at × (0 < at.depth) }
    ensures { Climbs run8 line.now scratch.old at scratch.new result }
{
    let mut read = at.read;
    let mut depth = at.depth;
    let mut top = top_level(scratch, depth);
    for &v in &line[at.read..] {
        if v < top {
            break;
        }
        put(scratch, depth, read as u16, v);
        depth = grown(depth, top, v);
        top = v;
        read += 1;
    }
    Bookmark { read, depth }
}

// The pixel at hand, darker than the topmost run, ends it. The run goes on from its start at the pixel's level, and the pixel is read; or, where the run below, at `under`,
// holds the pixel, it is gone.
fn fall(line: &[Pixel], scratch: &mut [u8], at: Bookmark, start: u16, under: Pixel) -> Bookmark
    requires { Ends run8 line.now scratch.old at start under × (at.read < length line.now) }
    ensures { Falls run8 line.now scratch.old at scratch.new result }
{
    let v = line[at.read];
    let last = at.depth - 1;
    if last != 0 && v <= under {
        return Bookmark {
            read: at.read,
            depth: last,
        };
    }
    put(scratch, last, start, v);
    Bookmark {
        read: at.read + 1,
        depth: at.depth,
    }
}

// The topmost run ends here: the pixel at hand is darker, or the line is at its end. Each way out builds its own record: one record behind both takes a twentieth longer.
fn close(line: &[Pixel], scratch: &mut [u8], at: Bookmark) -> Step
    requires { Closes run8 line.now scratch.old at }
    ensures { Finds run8 line.now scratch.old at scratch.new result }
{
    let last = at.depth - 1;
    let start = pair_at(scratch, 4 * last);
    let end = at.read as u16;
    let level = u16::from(top_level(scratch, at.depth));
    let under = top_level(scratch, last);
    if at.read == line.len() {
        let base = u16::from(under);
        return Step {
            stretch: Stretch {
                start,
                end,
                level,
                base,
            },
            bookmark: Bookmark {
                read: at.read,
                depth: last,
            },
        };
    }
    let base = u16::from(line[at.read].max(under));
    let bookmark = fall(line, scratch, at, start, under);
    Step {
        stretch: Stretch {
            start,
            end,
            level,
            base,
        },
        bookmark,
    }
}

// One step of a reading that stands at `at`: on to where a run ends, and that run.
fn find(line: &[Pixel], scratch: &mut [u8], at: Bookmark) -> Option<Step>
    requires { Ready line.now scratch.old at }
    ensures { Follows run8 line.now scratch.old at scratch.new result }
{
    let first = open_first(line, scratch, at);
    if first.depth == 0 {
        return None;
    }
    let here = climb(line, scratch, first);
    Some(close(line, scratch, here))
}

// The next stretch of a line and the bookmark to go on from, where a reading that `begin` began stands at `at`, its open runs in the scratch.
// At the line's end, and handed a bookmark at which no reading can stand, it finds none and changes nothing.
// Inlined, so that a step goes from call to caller in registers: handed back through memory it makes a listing take up to twice as long.
#[inline(always)]
pub fn next(line: &[Pixel], scratch: &mut [u8], at: Bookmark) -> Option<Step>
    ensures { Follows run8 line.now scratch.old at scratch.new result }
{
    if !is_ready(line.len(), scratch.len(), at) {
        return None;
    }
    find(line, scratch, at)
}
