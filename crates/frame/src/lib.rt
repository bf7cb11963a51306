// Frames and their lines, by their numbers alone: no call here sees a pixel's value.
#![tactic(auto)]

mod direction;
mod length;
mod lines;
mod shape;
mod span;
mod sweep;
mod track;

pub use direction::Direction;
pub use lines::{Lines, line_number, lines_of};
pub use shape::Shape;
pub use sweep::{Sweep, shift_at, sweep_of};
pub use track::{Track, track_of};
