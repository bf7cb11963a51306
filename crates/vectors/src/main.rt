// Runs the library on the cases of `stdin` and prints what it got, a line a case. `stdin` and `stdout` are written by the referee, check/referee.rs,
// which computes the same from the specification alone: both sides fill the buffers by one generator (draw.rt).
#![tactic(auto)]

use buffers::Buffers;
use calls::Call;
use got::Got;
use input::{Case, Reader};
use std::io::Read;

mod buffers;
mod calls;
mod draw;
mod frames;
mod got;
mod input;
mod lines;
mod texts;
mod totals;

// The most cases of a file.
const MOST: u64 = 100000;

// Makes a case's call. What it handed back, and the checksum of what is left.
fn run_case(c: &Case, buffers: &mut Buffers<'_>) -> (Got, u64) {
    buffers.prepare(c);
    let got = match c.call {
        Some(call) => call.run(c, buffers),
        None => got::nothing(),
    };
    let left = buffers.left(c, got.number == 0);
    (got, left)
}

// Prints a case's line in two writes, the answer and then the checksums: one that fails is passed over, and the other still prints its part. Then what is printed is
// not `stdout`.
fn show(rt: &impl Print, case: u64, got: Got, left: u64) {
    let Got {
        number,
        figure,
        first,
        second,
    } = got;
    let _ = print!(rt; "{case}\t{number}\t{figure}\t");
    let _ = println!(rt; "{first:x}\t{second:x}\t{left:x}");
}

// Runs the cases one after the other in the same buffers.
fn run(rt: &impl Print, text: &[u8], buffers: &mut Buffers<'_>) {
    let mut reader = Reader { rest: text };
    for number in 1..=MOST {
        if reader.rest.is_empty() {
            return;
        }
        let c = reader.case();
        if c.call == Some(Call::ReadInput) {
            reader.bytes(c.shape.width, buffers.src);
        }
        let (got, left) = run_case(&c, buffers);
        show(rt, number, got, left);
    }
}

// Lends the buffers: room for the longest input and one byte more, for the longest sums text, for the directions of the largest frame, and for the scratch of the
// longest side with a frame besides.
fn lend(rt: &impl Print, text: &[u8]) {
    let mut buffers = Buffers {
        src: &mut [0; 65664],
        dst: &mut [0; 131072],
        directions: &mut [0; 16384],
        sums: &mut [0; 4224],
        scratch: &mut [0; 49152],
    };
    run(rt, text, &mut buffers);
}

// Reads the case file and runs it: as much of it as can be read, and input has room for.
fn run_file<R: Read>(rt: &impl Print, file: &mut R, input: &mut [u8]) {
    let n = console::receive(file, input).unwrap_or_else(|cut| cut.count);
    lend(rt, &input[..n]);
}

fn main(rt: HostRuntime) {
    run_file(&rt, &mut rt.stdin(), &mut [0; 1048576]);
}
