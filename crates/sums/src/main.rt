// The program sums: bins and rest of a frame in a direction, with three bins.
#![tactic(auto)]

use answer::{LONGEST, Refusal};
use console::{PIXELS, ROOM};
use frame::Direction;
use std::io::Write;

// What a frame's lines need of scratch.
const SCRATCH: usize = 8 * LONGEST;

// Reads a frame, and writes the text of its bins and rest to the front of out. Hands back how many bytes that text has.
fn report(input: &[u8], out: &mut [u8]) -> Result<usize, Refusal> {
    let mut pixels = [0u8; PIXELS];
    let read = text::read_input(input, &mut pixels)?;
    let shape = read.shape();
    let direction = Direction::numbered(read.direction);
    let mut sums = [0u64; 4];
    let mut scratch = [0u8; SCRATCH];
    sizes::sums_of_frame(&pixels, shape, direction, &mut sums, &mut scratch)?;
    text::sums_text(read.direction, &sums, out)
}

// Reads a frame and prints its sums, or the refusal.
fn answer_to<W: Write>(stream: &mut W, input: &[u8]) {
    let mut out = [0u8; 512];
    match report(input, &mut out) {
        Ok(n) => {
            console::show(stream, &out, n);
        }
        Err(refusal) => console::refuse(stream, refusal.number()),
    }
}

// Where a read fails, nothing is printed: what was read may lack its end.
// `stretches` has the same: one for both, over what a program does as a closure, would have a `requires`, which no public function has.
fn main(rt: HostRuntime) {
    let mut input = [0u8; ROOM];
    if let Ok(n) = console::receive(&mut rt.stdin(), &mut input) {
        answer_to(&mut rt.stdout(), &input[..n]);
    }
}
