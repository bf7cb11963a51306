// The bright stretches of a line of 8-bit pixels: how many there are, one after the other, which encloses which, and all of them in a lent table.
#![tactic(auto)]

mod generator;
mod listing;
mod nesting;
mod runs;
mod tally;

pub use bright::{Bookmark, Nested, Step, Stretch};
pub use generator::{begin, next};
pub use listing::list;
pub use nesting::enclosers;
pub use tally::count;

pub type Pixel = u8;
