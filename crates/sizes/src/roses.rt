// The rose of a frame: its size sums in the sixteen numbered directions.
ghost use Rattle.std.specs.Prelude.{◌≡◌, length};
ghost use Rattle.answer.specs.Rules.{answer};
ghost use Rattle.answer.specs.Refusals.{finished};
ghost use Rattle.sizes.specs.Rose.{rose_rules, Roses};

use crate::Pixel;
use crate::frames::{View, tested};
use answer::Refusal;
use frame::{Direction, Shape};

// How `rose` refuses the same frame and scratch. Rules 1, 5, 7: those of each row's sums, whose direction and entries break none.
pub fn rose_refusal(src: &[Pixel], shape: Shape, scratch: &[u8]) -> Result<(), Refusal>
    ensures { finished result ≡ answer (rose_rules shape (length src.now) (length scratch.now)) 0 }
{
    tested(shape, Direction::Along, 33, src.len(), scratch.len())
}

// The rose of a frame: row d has the 32 bins and the rest of direction number d. `Roses` promises a table for every call: where `rose_refusal` refuses, every entry is
// the largest number, which no sum reaches.
pub fn rose(src: &[Pixel], shape: Shape, scratch: &mut [u8]) -> [[u64; 33]; 16]
    ensures { Roses src.now shape scratch.old scratch.new result }
{
    if rose_refusal(src, shape, scratch).is_err() {
        return [[u64::MAX; 33]; 16];
    }
    let mut rows = [[0; 33]; 16];
    for (number, row) in rows.iter_mut().enumerate() {
        let d = Direction::numbered(number);
        let view = View { src, shape, d };
        view.set_sums(row, scratch);
    }
    rows
}
