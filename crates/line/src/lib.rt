// Erosion, dilation and opening of a line of 8-bit pixels, and the engine that opens lines where they stand.
#![tactic(auto)]

mod dilation;
mod doubling;
mod erosion;
mod opening;

pub type Pixel = u8;

pub use dilation::dilate;
pub use doubling::{growth, open_in_place};
pub use erosion::erode;
pub use opening::open_line;
