// What both openings test.
ghost use Rattle.std.specs.Prelude.{◌≡◌};
ghost use Rattle.rows.specs.Rows.{can_open};

use frame::{Direction, Shape};

// Whether rules 1, 2 and 5 accept a frame, a direction and a buffer of n bytes, and the length is not 0. One above 4,096 is opened with too: no window fits.
pub(crate) fn can_open(shape: Shape, d: Direction, length: usize, n: usize) -> bool
    ensures { result ≡ can_open shape d length n }
{
    shape.is_frame() && d.is_direction() && 1 <= length && shape.bytes() <= n
}
