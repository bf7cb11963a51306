// One row's part of a pass down the rows. A line that has no pixel in the other row meets 0.
ghost use Rattle.std.specs.Prelude.{ℕ, ◌+◌, ◌-◌, ◌≤◌, length, get_or};
ghost use Rattle.lists.specs.Stores.{Filled};
ghost use Rattle.passes.specs.Passes.{op};
ghost use Rattle.rows.specs.Down.{beside};

use crate::Pixel;

// Each of the n pixels from `at` on meets its line's pixel in the row at `other`. In this row the lines stand `a` aside, in the other row `b`: a line's pixel there
// is a − b columns further to the right.
pub(crate) fn meet_row(
    buf: &mut [Pixel],
    at: usize,
    n: usize,
    other: usize,
    a: usize,
    b: usize,
    darker: bool,
)
    requires { (at + n ≤ length buf.old) × (other + n ≤ length buf.old) }
    ensures { Filled buf.old buf.new at (at + n) (λ (x : ℕ). op darker (get_or buf.old x 0) (beside buf.old other n a b (x - at))) }
{
    let aside = a.abs_diff(b);
    if n <= aside {
        passes::fade(buf, at, n, darker);
    } else if b <= a {
        passes::meet(buf, at, other + aside, n - aside, darker);
        passes::fade(buf, at + (n - aside), aside, darker);
    } else {
        passes::meet(buf, at + aside, other, n - aside, darker);
        passes::fade(buf, at, aside, darker);
    }
}
