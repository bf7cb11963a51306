// The programs' input.
ghost use Rattle.std.specs.Prelude.{◌≡◌, ◌*◌, ◌≤◌, length};
ghost use Rattle.text.specs.Inputs.{longest_input, outcome, ReadsInput};
ghost use Rattle.text.specs.Steps.{Tests};
ghost use Rattle.frame.specs.Shape.{shape};

use crate::Pixel;
use crate::reading::{read_head, read_rows};
use answer::{LONGEST, Refusal, is_outside};
use frame::Shape;

// The most bytes of an input.
pub const LONGEST_INPUT: usize = 65536;

// What stands before the pixels of a frame: the direction number, the width and the height.
#[derive(Clone, Copy, Debug, PartialEq, Eq)]
pub struct Input {
    pub direction: usize,
    pub width: usize,
    pub height: usize,
}

impl Input {
    // The shape of the frame, whose pixels stand row by row.
    pub fn shape(self) -> Shape
        ensures { result ≡ shape self.width self.height self.width }
    {
        Shape {
            width: self.width,
            height: self.height,
            stride: self.width,
        }
    }
}

// The rules for a text, with `room` bytes for the pixels. The pixels go to the front of `values`.
fn tested(text: &[u8], values: &mut [Pixel], room: usize) -> Result<Input, Refusal>
    requires { longest_input ≤ 2 * length values.old }
    ensures { Tests text.now room values.old values.new result }
{
    Refusal::Input.when(LONGEST_INPUT < text.len())?;
    let (input, rows) = read_head(text).ok_or(Refusal::Input)?;
    Refusal::Size.when(is_outside(input.width, 1, LONGEST))?;
    Refusal::Size.when(is_outside(input.height, 1, LONGEST))?;
    Refusal::Direction.when(15 < input.direction)?;
    read_rows(rows, input.width, input.height, values).ok_or(Refusal::Input)?;
    Refusal::Destination(input.width * input.height).unless_there(room)?;
    Ok(input)
}

// Reads the programs' input: the pixels go, row by row, to the front of `pixels`. Rules 9, 1, 2, 9, 6.
pub fn read_input(text: &[u8], pixels: &mut [Pixel]) -> Result<Input, Refusal>
    ensures { ReadsInput text.now pixels.old pixels.new (outcome result) }
{
    let mut values = [0; LONGEST_INPUT / 2];
    let input = tested(text, &mut values, pixels.len())?;
    let count = input.width * input.height;
    pixels[..count].copy_from_slice(&values[..count]);
    Ok(input)
}
