// The reading of an input, which hands back more than an answer.
use crate::draw::mixed;
use crate::got::{Got, answered};

// What is read of an input: its direction, and the checksum of width and height; each is 0 where it is refused.
pub(crate) fn input(src: &[u8], dst: &mut [u8]) -> Got {
    let read = text::read_input(src, dst);
    let (direction, width, height) = match read {
        Ok(input) => (input.direction, input.width, input.height),
        Err(_) => (0, 0, 0),
    };
    Got {
        first: direction as u64,
        second: mixed(mixed(1, width as u64), height as u64),
        ..answered(read.map(|_| 0usize))
    }
}
