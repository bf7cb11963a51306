// Reading numbers, lines and rows from the front of a text: each reading hands back what follows it, or nothing where what it looks for is not there.
// A pixel takes two bytes of text at least, so a buffer of half as many pixels as the text has bytes holds them all.
ghost use Rattle.std.specs.Prelude.{◌≡◌, ◌*◌, ◌≤◌, ◌<◌, length};
ghost use Rattle.text.specs.Reading.{goes_on, number_on, number_of, field_of, fields_of, line_of, rows_of};
ghost use Rattle.text.specs.Steps.{IsNumber, Reads, StepsOver, Heads, Stores, Rows};

use crate::Pixel;
use crate::input::Input;

// The largest number of an input.
const LARGEST_NUMBER: usize = 65535;

// The largest pixel.
const LARGEST_PIXEL: usize = 255;

// A number that was read, and what follows it.
#[derive(Clone, Copy)]
pub(crate) struct Number<'a> {
    pub value: usize,
    pub rest: &'a [u8],
}

// Whether c is one more digit of a number whose value so far is `value`. A 0 takes none, so that no number has a leading zero;
// nor does a number that is above every range already.
fn goes_on(value: usize, c: u8) -> bool
    ensures { result ≡ goes_on value c }
{
    0 < value && value <= LARGEST_NUMBER && c.is_ascii_digit()
}

// The number whose value so far is `first`, and which goes on at the front of the text.
#[tactic(auto, unfolding(crate::specs::Reading::number_on))]
fn number_on(text: &[u8], first: usize) -> Number<'_>
    requires { first < 10 }
    ensures { IsNumber (number_on first text.now) result }
{
    let mut value = first;
    let mut rest = text;
    while let Some((c, behind)) = rest.split_first()
        && goes_on(value, *c)
    {
        value = 10 * value + usize::from(*c - b'0');
        rest = behind;
    }
    Number { value, rest }
}

// The number at the front.
#[tactic(auto, unfolding(crate::specs::Reading::number_of))]
fn read_number(text: &[u8]) -> Option<Number<'_>>
    ensures { Reads (number_of text.now) result }
{
    let (c, rest) = text.split_first()?;
    if !c.is_ascii_digit() {
        return None;
    }
    Some(number_on(rest, usize::from(*c - b'0')))
}

// What follows the byte b, where it stands at the front.
fn behind(text: &[u8], b: u8) -> Option<&[u8]>
    ensures { StepsOver b text.now result }
{
    let (first, rest) = text.split_first()?;
    if *first == b { Some(rest) } else { None }
}

// The field at the front: a tab, and a number of at most `most`.
#[tactic(auto, unfolding(crate::specs::Reading::field_of))]
fn read_field(text: &[u8], most: usize) -> Option<Number<'_>>
    ensures { Reads (field_of most text.now) result }
{
    let number = read_number(behind(text, b'\t')?)?;
    if number.value <= most {
        Some(number)
    } else {
        None
    }
}

// The first two lines, and what follows them.
#[tactic(auto, unfolding(crate::specs::Inputs::head_of, crate::specs::Reading::line_of, crate::specs::Reading::fields_of))]
pub(crate) fn read_head(text: &[u8]) -> Option<(Input, &[u8])>
    ensures { Heads text.now result }
{
    let direction = read_field(behind(text, b'D')?, LARGEST_NUMBER)?;
    let frame = behind(direction.rest, b'\n')?;
    let width = read_field(behind(frame, b'F')?, LARGEST_NUMBER)?;
    let height = read_field(width.rest, LARGEST_NUMBER)?;
    let rest = behind(height.rest, b'\n')?;
    let input = Input {
        direction: direction.value,
        width: width.value,
        height: height.value,
    };
    Some((input, rest))
}

// The `width` fields at the front, their pixels stored at the front of `pixels`.
fn read_fields<'a>(text: &'a [u8], width: usize, pixels: &mut [Pixel]) -> Option<&'a [u8]>
    requires { length text.now ≤ 2 * length pixels.old }
    ensures { Stores (fields_of 255 width text.now) pixels.old pixels.new result }
{
    let mut rest = text;
    for i in 0..width {
        let field = read_field(rest, LARGEST_PIXEL)?;
        pixels[i] = field.value as Pixel;
        rest = field.rest;
    }
    Some(rest)
}

// The row at the front: its letter, a field a pixel, and the line feed.
#[tactic(auto, unfolding(crate::specs::Reading::line_of))]
fn read_row<'a>(text: &'a [u8], width: usize, pixels: &mut [Pixel]) -> Option<&'a [u8]>
    requires { length text.now ≤ 2 * length pixels.old }
    ensures { Stores (line_of 82 255 width text.now) pixels.old pixels.new result }
{
    let fields = behind(text, b'R')?;
    let end = read_fields(fields, width, pixels)?;
    behind(end, b'\n')
}

// The rows to the text's end, their pixels stored at the front of `pixels`.
pub(crate) fn read_rows(
    text: &[u8],
    width: usize,
    height: usize,
    pixels: &mut [Pixel],
) -> Option<()>
    requires { length text.now ≤ 2 * length pixels.old }
    ensures { Rows (rows_of height width text.now) pixels.old pixels.new result }
{
    let mut rest = text;
    for row in 0..height {
        rest = read_row(rest, width, &mut pixels[row * width..])?;
    }
    if rest.is_empty() { Some(()) } else { None }
}
