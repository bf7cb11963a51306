// Passes over pixels: each meets another at its place in a second row, and becomes the darker or the brighter of the two. This is where the time of an opening
// goes, so the loops are flat and compile to vector instructions; those that work in place go by blocks. Every call is total: it tests once what its loops rely
// on, and changes nothing where that is not so. Which of the two, which way, and whether lines bend are parameters: no loop asks them more than once a block. They stay
// parameters, and so do a start and a count beside a slice, since the contracts speak of them (`op darker`, `MeetsBy`, `Clears`).
#![tactic(auto)]

mod between;
mod fill;
mod partner;
mod pass;

// What is met, made 0, copied and claimed; marks and the numbers of holders are bytes.
pub type Pixel = u8;

pub use between::{claim, meet_by};
pub use fill::{blacken, blacken_bent, copy, fade};
pub use pass::{meet, meet_bent};
