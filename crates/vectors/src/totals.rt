// The rose and the summary, which hand back more than an answer.
use crate::draw::checked;
use crate::got::{Got, answered};
use frame::Shape;

// The rose's checksum, row after row, with the answer for the same frame and scratch.
pub(crate) fn rose(src: &[u8], shape: Shape, scratch: &mut [u8]) -> Got {
    let rose = sizes::rose(src, shape, scratch);
    Got {
        first: rose.iter().fold(1, |check, row| checked(check, row)),
        ..answered(sizes::rose_refusal(src, shape, scratch))
    }
}

// A float's 64 bits; the summary never has one without a number.
fn pattern(x: f64) -> u64 {
    if x.is_nan() { 0 } else { x.to_bits() }
}

pub(crate) fn summary(sums: &[u64]) -> Got {
    let s = sizes::summarize(sums);
    Got {
        number: u64::from(s.number),
        figure: 0,
        first: pattern(s.mean),
        second: pattern(s.share),
    }
}
