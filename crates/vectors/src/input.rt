// The case file: a line a case, of decimal numbers parted by one byte each, with a minus sign where a number is below 0.
use crate::calls::Call;
use crate::draw::{Amount, Picture};
use frame::{Direction, Shape};

// A case: the call, how its buffers are filled, and its arguments; what a call does not take is 0.
#[derive(Clone, Copy)]
pub(crate) struct Case {
    pub call: Option<Call>,
    pub picture: Picture,
    pub amount: Amount,
    pub seed: u64,
    pub shape: Shape,
    pub direction: Direction,
    pub line: i64,
    pub length: usize,
    pub src: usize,
    pub dst: usize,
    pub directions: usize,
    pub scratch: usize,
}

// What is still to be read of the file.
#[derive(Clone, Copy)]
pub(crate) struct Reader<'a> {
    pub rest: &'a [u8],
}

// The number so far with one digit more. No number of the file has more than eighteen.
fn longer(size: u64, digit: u8) -> u64 {
    size % 100000000000000000 * 10 + u64::from(digit)
}

impl Reader<'_> {
    // The 64 bits of the number at hand: below 0 it counts from 2^64 down. A byte below '0' ends it, but for a minus sign; at the file's end it is 0.
    fn number(&mut self) -> u64 {
        let mut size = 0;
        let mut minus = false;
        while let [byte, rest @ ..] = self.rest {
            self.rest = rest;
            match *byte {
                b'-' => minus = true,
                0..=b'/' => break,
                digit => size = longer(size, digit - b'0'),
            }
        }
        if minus { size.wrapping_neg() } else { size }
    }

    fn size(&mut self) -> usize {
        self.number() as usize
    }

    // A signed number: none of the file is more than 4,096 from 0.
    fn signed(&mut self) -> i64 {
        self.number().cast_signed() % 4097
    }

    fn shape(&mut self) -> Shape {
        Shape {
            width: self.size(),
            height: self.size(),
            stride: self.size(),
        }
    }

    fn direction(&mut self) -> Direction {
        Direction {
            p: self.signed(),
            q: self.signed(),
        }
    }

    // The case at hand.
    pub(crate) fn case(&mut self) -> Case {
        let call = Call::numbered(self.number());
        let kind = self.number();
        Case {
            call,
            picture: Picture::from(kind),
            amount: Amount::from(kind),
            seed: self.number(),
            shape: self.shape(),
            direction: self.direction(),
            line: self.signed(),
            length: self.size(),
            src: self.size(),
            dst: self.size(),
            directions: self.size(),
            scratch: self.size(),
        }
    }

    // The n bytes that a case has behind its numbers, to the front of a buffer.
    pub(crate) fn bytes(&mut self, n: usize, buf: &mut [u8]) {
        for byte in buf.iter_mut().take(n) {
            *byte = (self.number() % 256) as u8;
        }
    }
}

impl Case {
    // How many sums a case lends: the sums text has a destination beside them.
    pub(crate) fn entries(&self) -> usize {
        if self.call == Some(Call::SumsText) {
            self.src
        } else {
            self.dst
        }
    }
}
