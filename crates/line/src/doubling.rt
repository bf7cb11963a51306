// A line eroded, dilated and opened where it stands. The windows' length doubles from one pass to the next, up to `length`: about 2·log2(length) passes in all,
// whatever the picture.
ghost use Rattle.std.specs.Prelude.{◌≡◌, ◌-◌, ◌≤◌, min};
ghost use lib.ListN;
ghost use Rattle.line.specs.Opening.{opened_in_place};
ghost use Rattle.line.specs.Passes.{ErodedFront, DilatedFront};

use crate::Pixel;

// How much longer windows of w pixels may get in one pass on their way to `length`: to twice their length, and at most to `length`.
pub fn growth(w: usize, length: usize) -> usize
    ensures { result ≡ min w (length - w) }
{
    w.min(length.saturating_sub(w))
}

// The line begins with the values of its erosion; what follows them is left over from the passes. A `while`, here and in the dilation, since the step varies; and two
// functions, since one for both would choose each turn where the row and its partners begin and how far they reach. That a length is not 0 is a clause here and above,
// and no type's: a `NonZeroUsize` would have to be unwrapped in each line that reckons with it.
pub(crate) fn erode_in_place(line: &mut [Pixel], length: usize)
    requires { (1 ≤ length) × (length ≤ lib.ListN.length line.old) }
    ensures { ErodedFront line.old length line.new }
{
    let n = line.len();
    let mut w = 1;
    while w < length {
        let s = growth(w, length);
        w += s;
        passes::meet(line, 0, s, n - w + 1, true);
    }
}

// The line becomes the first values of its dilation, as many as it has pixels.
pub(crate) fn dilate_in_place(line: &mut [Pixel], length: usize)
    requires { (1 ≤ length) × (length ≤ lib.ListN.length line.old) }
    ensures { DilatedFront line.old length line.new }
{
    let n = line.len();
    let mut w = 1;
    while w < length {
        let s = growth(w, length);
        w += s;
        passes::meet(line, s, 0, n - s, false);
    }
}

// Opens a line of any number of pixels where it stands. A length of 0 changes nothing.
pub fn open_in_place(line: &mut [Pixel], length: usize)
    ensures { line.new ≡ opened_in_place line.old length }
{
    let n = line.len();
    if length == 0 {
        return;
    }
    if n < length {
        passes::blacken(line, 0, n);
        return;
    }
    erode_in_place(line, length);
    let eroded = n - length + 1;
    passes::blacken(line, eroded, n - eroded);
    dilate_in_place(line, length);
}
