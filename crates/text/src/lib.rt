// The texts of the two programs: what they print, and how their input is read.
#![tactic(auto)]

mod decimal;
mod input;
mod lines;
mod reading;
mod stretches;
mod sums;

pub use input::{Input, LONGEST_INPUT, read_input};
pub use stretches::{line_text, refusal_text};
pub use sums::sums_text;

pub type Pixel = u8;
