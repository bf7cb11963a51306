// The entry for the camera's host, written in C: numbers and byte slices in, one number back. The crate `opening_c` exports it.
ghost use Rattle.std.specs.Prelude.{◌≡◌};
ghost use Rattle.answer.specs.Refusals.{finished};
ghost use Rattle.frame.specs.Direction.{dir};
ghost use Rattle.frame.specs.Shape.{shape};
ghost use Rattle.opening.specs.Host.{one_number, HostOpens};

use crate::Pixel;
use crate::frames::open_frame;
use answer::{Answer, Refusal};
use frame::{Direction, Shape};

// What a refusal's number counts in the one number that the host gets: 2^32.
const UNIT: u64 = 1 << 32;

// The refusal's number times 2^32, plus the figure; a product and no shift, as the sentence has it.
fn one_number(outcome: Result<(), Refusal>) -> u64
    ensures { result ≡ one_number (finished outcome) }
{
    let answer = Answer::from(outcome);
    u64::from(answer.number) * UNIT + answer.figure % UNIT
}

// Opens a frame as `open_frame` does.
pub fn fibre_open_frame(
    src: &[Pixel],
    width: usize,
    height: usize,
    stride: usize,
    p: i64,
    q: i64,
    length: usize,
    dst: &mut [Pixel],
    scratch: &mut [u8],
) -> u64
    ensures { HostOpens src.now (shape width height stride) (dir p q) length dst.old dst.new scratch.old scratch.new result }
{
    let frame = Shape {
        width,
        height,
        stride,
    };
    one_number(open_frame(src, frame, Direction { p, q }, length, dst, scratch))
}
