// Pixels that become 0, and pixels that are copied.
ghost use Rattle.std.specs.Prelude.{cond, ℕ, ◌≡◌, ◌+◌, ◌-◌, ◌≤◌, eqb, length, get_or};
ghost use Rattle.lists.specs.Stores.{Filled};
ghost use Rattle.passes.specs.Passes.{Clears, Fades, ClearsBent, Copies};

use crate::Pixel;
use crate::partner::either;
use crate::pass::is_within;

// Each of the n pixels from `at` on becomes 0. Where they are not all in the buffer, nothing changes.
pub fn blacken(buf: &mut [Pixel], at: usize, n: usize)
    ensures { Clears at n buf.old buf.new }
{
    if is_within(buf.len(), at, n) {
        buf[at..at + n].fill(0);
    }
}

// Each of the n pixels from `at` on meets 0, as one does that has no partner: it becomes 0, or stays as it is. Where they are not all in the buffer, nothing changes.
pub fn fade(buf: &mut [Pixel], at: usize, n: usize, darker: bool)
    ensures { Fades darker at n buf.old buf.new }
{
    if darker {
        blacken(buf, at, n);
    }
}

// Not over a `zip`: of what such a loop writes through `iter_mut` a proof knows only the length.
fn blacken_marked(row: &mut [Pixel], marks: &[u8])
    requires { length row.old ≡ length marks.now }
    ensures { Filled row.old row.new 0 (length row.old) (λ (k : ℕ). cond (eqb (get_or marks.now k 0) 0) (get_or row.old k 0) 0) }
{
    for (i, pixel) in row.iter_mut().enumerate() {
        *pixel = either(marks[i], *pixel, 0);
    }
}

// Each of the n pixels from `at` on that is marked becomes 0. Where they or their marks are not all there, nothing changes.
pub fn blacken_bent(buf: &mut [Pixel], bends: &[u8], at: usize, n: usize)
    ensures { ClearsBent bends.now at n buf.old buf.new }
{
    if n <= bends.len() && is_within(buf.len(), at, n) {
        blacken_marked(&mut buf[at..at + n], &bends[..n]);
    }
}

// Not by `copy_from_slice`: where that is inlined, the compiler no longer keeps blocks on the stack apart from the row, and rows opened in place take over twice
// the time.
fn copy_row(row: &mut [Pixel], src: &[Pixel])
    requires { length row.old ≡ length src.now }
    ensures { Filled row.old row.new 0 (length row.old) (λ (k : ℕ). get_or src.now k 0) }
{
    for (i, pixel) in row.iter_mut().enumerate() {
        *pixel = src[i];
    }
}

// The first n pixels of src come to the front of dst. Where one of the two has fewer, nothing changes.
pub fn copy(src: &[Pixel], n: usize, dst: &mut [Pixel])
    ensures { Copies src.now n dst.old dst.new }
{
    if n <= src.len() && n <= dst.len() {
        copy_row(&mut dst[..n], &src[..n]);
    }
}
