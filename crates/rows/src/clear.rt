// Rows that become 0. `opening` clears the numbers of directions by such a loop; it has a shape, and here is none.
ghost use Rattle.std.specs.Prelude.{ℕ, ◌+◌, ◌-◌, ◌*◌, ◌≤◌, length};
ghost use Rattle.rows.specs.Rows.{rows_by, RowsAre};

use crate::Pixel;

// Of the rows of n pixels that stand `stride` apart, those from `from` up to, not including, `to` become 0.
pub(crate) fn clear_rows(buf: &mut [Pixel], stride: usize, n: usize, from: usize, to: usize)
    requires { (n ≤ stride) × (from ≤ to) × ((to - 1) * stride + n ≤ length buf.old) }
    ensures { RowsAre (rows_by stride) n from to (λ (i k : ℕ). 0) buf.old buf.new }
{
    for i in from..to {
        passes::blacken(buf, i * stride, n);
    }
}
