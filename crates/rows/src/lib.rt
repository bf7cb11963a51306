// The opening of a frame in one direction row by row, in place: every pass is a flat loop over neighbouring pixels. No line is gathered, and nothing is laid aside
// but a pixel for each line where lines go down the rows, and a row of marks where they go along them.
#![tactic(auto)]

mod block;
mod clear;
mod down;
mod levels;
mod marks;
mod order;
mod row;
mod rules;
mod shallow;
mod slant;

pub type Pixel = u8;

pub use down::open_down;
pub use shallow::open_shallow;
