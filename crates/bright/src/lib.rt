// The bright stretches of a line, whatever the width of its pixels: what a reading of the line stands at and what it finds. What a bright stretch is, which
// encloses which, how one reading makes the list, and the laws of these speak of lists of numbers (specs/, proofs/).
#![tactic(auto)]

// A bright stretch: its start, its end, which is not included, its darkest pixel and its brighter neighbour.
#[repr(C)]
#[derive(Clone, Copy, Debug, PartialEq, Eq)]
pub struct Stretch {
    pub start: u16,
    pub end: u16,
    pub level: u16,
    pub base: u16,
}

// A bright stretch as the list holds it: its four numbers and, as the fifth, the place, from 0, in the list of the shortest other stretch that encloses it; of the whole
// line its own place.
#[repr(C)]
#[derive(Clone, Copy, Debug, PartialEq, Eq)]
pub struct Nested {
    pub stretch: Stretch,
    pub encloser: u16,
}

// Where a reading of a line stands: how many pixels are read, and how many runs are open in the scratch.
#[derive(Clone, Copy, Debug, PartialEq, Eq)]
pub struct Bookmark {
    pub read: usize,
    pub depth: usize,
}

// The stretch that a reading finds next, and the bookmark to go on from.
#[derive(Clone, Copy, Debug, PartialEq, Eq)]
pub struct Step {
    pub stretch: Stretch,
    pub bookmark: Bookmark,
}

// The record that a listing finds next, and the bookmark to go on from. No place in the list is known before the list is whole: until then `nested` has the start of its
// encloser for the encloser's place. A struct of its own beside `Step`: one for both would call a stretch and a record by one name.
#[derive(Clone, Copy, Debug, PartialEq, Eq)]
pub struct Noted {
    pub nested: Nested,
    pub bookmark: Bookmark,
}
