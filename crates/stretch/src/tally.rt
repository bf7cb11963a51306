// How many bright stretches a line has.
ghost use Rattle.std.specs.Prelude.{◌≡◌, length};
ghost use Rattle.bright.specs.Stretches.{stretches};

use crate::Pixel;

// How many levels a pixel can have.
const LEVELS: usize = 256;

// The count of the bright stretches of a line of any length. It needs no scratch: the levels of the open runs rise, so that as many places as there are levels are enough.
pub fn count(line: &[Pixel]) -> usize
    ensures { result ≡ length (stretches line.now) }
{
    // An array with its count beside it, and a `while` that takes from its top: how many runs a pixel ends is up to the line, and a `Vec` would be on the heap, which no
    // call here uses.
    let mut levels: [Pixel; LEVELS] = [0; LEVELS];
    let mut depth: usize = 0;
    let mut total: usize = 0;
    for &v in line {
        while 0 < depth && v < levels[depth - 1] {
            depth -= 1;
            total += 1;
        }
        if depth == 0 || levels[depth - 1] < v {
            levels[depth] = v;
            depth += 1;
        }
    }
    total + depth
}
