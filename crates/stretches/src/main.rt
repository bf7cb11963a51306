// The program stretches: the bright stretches of each line of a frame in a direction.
#![tactic(auto)]

use answer::LONGEST;
use console::{PIXELS, ROOM};
use frame::{Direction, Shape};
use std::io::Write;
use text::Input;

// The bytes that the text of every line has room in: 64, and 107 for each of 4,096 pixels.
const REPORT: usize = 438336;

// A frame and a direction, as an input has them.
#[derive(Clone, Copy)]
struct Frame<'a> {
    pixels: &'a [u8],
    shape: Shape,
    direction: Direction,
}

// Prints one line: its number, its pixel count and its stretches. Answers whether it is printed.
fn print_line<W: Write>(stream: &mut W, number: i64, line: &[u8]) -> bool {
    let mut out = [0u8; REPORT];
    let n = text::line_text(number, line, &mut out);
    console::show(stream, &out, n)
}

impl<'a> Frame<'a> {
    // The frame that is read, whose pixels stand row by row.
    fn new(pixels: &'a [u8], read: Input) -> Frame<'a> {
        Frame {
            pixels,
            shape: read.shape(),
            direction: Direction::numbered(read.direction),
        }
    }

    // Gathers the line of a number and prints it. Answers whether it is printed.
    fn print_gathered<W: Write>(&self, stream: &mut W, number: i64) -> bool {
        let mut line = [0u8; LONGEST];
        let Ok(n) = gathering::gather(self.pixels, self.shape, self.direction, number, &mut line)
        else {
            return false;
        };
        let Some(gathered) = line.get(..n) else {
            return false;
        };
        print_line(stream, number, gathered)
    }

    // Prints the lines in ascending number, up to the first that cannot be printed: no line stands behind one that is missing.
    fn print<W: Write>(&self, stream: &mut W) {
        let lines = frame::lines_of(self.shape, self.direction);
        for u in 0..lines.count {
            let number = frame::line_number(self.shape, self.direction, u);
            if !self.print_gathered(stream, number) {
                return;
            }
        }
    }
}

// Reads a frame and prints its lines, or the refusal.
fn answer_to<W: Write>(stream: &mut W, input: &[u8]) {
    let mut pixels = [0u8; PIXELS];
    match text::read_input(input, &mut pixels) {
        Ok(read) => Frame::new(&pixels, read).print(stream),
        Err(refusal) => console::refuse(stream, refusal.number()),
    }
}

// Where a read fails, nothing is printed: what was read may lack its end.
// `sums` has the same: one for both, over what a program does as a closure, would have a `requires`, which no public function has.
fn main(rt: HostRuntime) {
    let mut input = [0u8; ROOM];
    if let Ok(n) = console::receive(&mut rt.stdin(), &mut input) {
        answer_to(&mut rt.stdout(), &input[..n]);
    }
}
