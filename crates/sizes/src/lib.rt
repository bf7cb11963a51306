// Size sums of lines and frames of 8-bit pixels, and what is made of them.
#![tactic(auto)]

mod frames;
mod lines;
mod roses;
mod summary;

pub use frames::sums_of_frame;
pub use lines::sums_of_line;
pub use roses::{rose, rose_refusal};
pub use summary::{Summary, summarize};

pub type Pixel = u8;
