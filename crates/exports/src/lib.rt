// The calls that the benchmark (bench/) and the demonstration (host/demo.c) make, each under a name that C can link (host/calls.h). The product's own entry
// for C is another (include/fibre.h).
#![tactic(auto)]

ghost use Rattle.std.specs.Prelude.{◌≡◌};
ghost use Rattle.frame.specs.Direction.{dir};
ghost use Rattle.frame.specs.Shape.{shape};
ghost use Rattle.gathering.specs.Gathering.{Gathers};
ghost use Rattle.line.specs.Erosion.{ErodesLine};
ghost use Rattle.line.specs.Dilation.{DilatesLine};
ghost use Rattle.line.specs.Opening.{OpensLine};
ghost use Rattle.opening.specs.Sixteen.{FindsHighest};
ghost use Rattle.sizes.specs.Frame.{SumsFrame};
ghost use Rattle.sizes.specs.Summary.{summary_of};

use answer::Answer;
use frame::{Direction, Shape};

// A shape as C hands it over, in three numbers.
fn shape_of(width: usize, height: usize, stride: usize) -> Shape
    ensures { result ≡ shape width height stride }
{
    Shape {
        width,
        height,
        stride,
    }
}

#[unsafe(no_mangle)]
pub extern "C" fn c_erode(src: &[u8], length: usize, dst: &mut [u8]) -> Answer
    ensures { ErodesLine src.now length dst.old dst.new result }
{
    Answer::from(line::erode(src, length, dst))
}

#[unsafe(no_mangle)]
pub extern "C" fn c_dilate(src: &[u8], length: usize, dst: &mut [u8]) -> Answer
    ensures { DilatesLine src.now length dst.old dst.new result }
{
    Answer::from(line::dilate(src, length, dst))
}

#[unsafe(no_mangle)]
pub extern "C" fn c_open_line(
    src: &[u8],
    length: usize,
    dst: &mut [u8],
    scratch: &mut [u8],
) -> Answer
    ensures { OpensLine src.now length dst.old dst.new scratch.old scratch.new result }
{
    Answer::from(line::open_line(src, length, dst, scratch))
}

#[unsafe(no_mangle)]
pub extern "C" fn c_gather(
    src: &[u8],
    width: usize,
    height: usize,
    stride: usize,
    p: i64,
    q: i64,
    line: i64,
    dst: &mut [u8],
) -> Answer
    ensures { Gathers src.now (shape width height stride) (dir p q) line dst.old dst.new result }
{
    let frame = shape_of(width, height, stride);
    Answer::from(gathering::gather(src, frame, Direction { p, q }, line, dst))
}

#[unsafe(no_mangle)]
pub extern "C" fn c_highest(
    src: &[u8],
    width: usize,
    height: usize,
    stride: usize,
    length: usize,
    dst: &mut [u8],
    directions: &mut [u8],
    scratch: &mut [u8],
) -> Answer
    ensures { FindsHighest src.now (shape width height stride) length dst.old dst.new directions.old directions.new scratch.old scratch.new result }
{
    let frame = shape_of(width, height, stride);
    Answer::from(opening::highest(src, frame, length, dst, directions, scratch))
}

#[unsafe(no_mangle)]
pub extern "C" fn c_sums_of_frame(
    src: &[u8],
    width: usize,
    height: usize,
    stride: usize,
    p: i64,
    q: i64,
    sums: &mut [u64],
    scratch: &mut [u8],
) -> Answer
    ensures { SumsFrame src.now (shape width height stride) (dir p q) sums.old sums.new scratch.old scratch.new result }
{
    let frame = shape_of(width, height, stride);
    Answer::from(sizes::sums_of_frame(src, frame, Direction { p, q }, sums, scratch))
}

// The summary comes back one number at a time: its record is not laid out for C.
#[unsafe(no_mangle)]
pub extern "C" fn c_mean(sums: &[u64]) -> f64
    ensures { result ≡ (summary_of sums.now).mean }
{
    sizes::summarize(sums).mean
}

#[unsafe(no_mangle)]
pub extern "C" fn c_share(sums: &[u64]) -> f64
    ensures { result ≡ (summary_of sums.now).share }
{
    sizes::summarize(sums).share
}

#[unsafe(no_mangle)]
pub extern "C" fn c_number(sums: &[u64]) -> u32
    ensures { result ≡ (summary_of sums.now).number }
{
    sizes::summarize(sums).number
}
