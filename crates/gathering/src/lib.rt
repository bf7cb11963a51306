// Lines of a frame of pixels: gathered, scattered, and claimed for a number; and the lent row.
#![tactic(auto)]

mod claiming;
mod gathering;
mod rows;
mod rules;
mod scattering;
mod walk;

// What a frame and a line consist of; the numbers of holders are bytes.
pub type Pixel = u8;

pub use claiming::claim;
pub use gathering::gather;
pub use rows::row;
pub use scattering::scatter;
