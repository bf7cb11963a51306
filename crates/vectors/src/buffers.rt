// The lent buffers: what they hold before a call, what of them a case lends, and the checksum of what is left in them.
use crate::calls::Call;
use crate::draw::{Picture, checked, fill, repeat};
use crate::input::Case;

#[derive(Drop)]
pub(crate) struct Buffers<'a> {
    pub src: &'a mut [u8],
    pub dst: &'a mut [u8],
    pub directions: &'a mut [u8],
    pub sums: &'a mut [u64],
    pub scratch: &'a mut [u8],
}

// A lent buffer and the eight bytes, sums or places behind it: none of those may change.
pub(crate) fn guarded(n: usize) -> usize {
    n.wrapping_add(8)
}

// The first n of a buffer, or all of it.
pub(crate) fn front<T>(buf: &[T], n: usize) -> &[T] {
    &buf[..n.min(buf.len())]
}

pub(crate) fn front_mut<T>(buf: &mut [T], n: usize) -> &mut [T] {
    let n = n.min(buf.len());
    &mut buf[..n]
}

impl Buffers<'_> {
    // A text, which the line of its case brings along, goes on as it ends; any other source is of the case's kind.
    fn prepare_source(&mut self, c: &Case) {
        if c.call == Some(Call::ReadInput) {
            repeat(self.src, c.shape.width, c.src, c.shape.height);
        } else {
            c.picture.fill(self.src, c.src, c.seed);
        }
    }

    // Source and sums are what the case says; destinations and scratch hold noise.
    pub(crate) fn prepare(&mut self, c: &Case) {
        self.prepare_source(c);
        let noise = Picture::Noise;
        noise.fill(self.dst, guarded(c.dst), c.seed.wrapping_add(1));
        fill(
            self.sums,
            guarded(c.entries()),
            c.seed.wrapping_add(2),
            |drawn| c.amount.of(drawn),
        );
        noise.fill(self.scratch, guarded(c.scratch), c.seed.wrapping_add(3));
        noise.fill(
            self.directions,
            guarded(c.directions),
            c.seed.wrapping_add(4),
        );
    }

    // The checksum of all that was lent to be written, with what stands behind. What a done call leaves in its scratch is not settled.
    pub(crate) fn left(&self, c: &Case, done: bool) -> u64 {
        let unsettled = if done { c.scratch } else { 0 };
        let check = checked(1, front(self.dst, guarded(c.dst)));
        let check = checked(check, front(self.directions, guarded(c.directions)));
        let check = checked(check, front(self.sums, guarded(c.entries())));
        let scratch = front(self.scratch, guarded(c.scratch));
        checked(check, scratch.get(unsettled..).unwrap_or(&[]))
    }
}
