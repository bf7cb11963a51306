// Opening a frame in one direction, and the highest opening over the sixteen numbered directions with the number of the direction that gave it.
#![tactic(auto)]

mod claiming;
mod frames;
mod host;
mod lent;
mod linewise;
mod rowwise;
mod sixteen;

// What is opened; scratch and the numbers of directions are bytes.
pub type Pixel = u8;

pub use frames::open_frame;
pub use host::fibre_open_frame;
pub use sixteen::highest;
