// The generator that both sides have: what the buffers of a case hold before the call, and the checksums of what they hold after it.

// xorshift64: no two states have the same next one, so a checksum that goes through it differs wherever just one byte does.
fn step(s: u64) -> u64 {
    let a = s ^ (s << 13);
    let b = a ^ (a >> 7);
    b ^ (b << 17)
}

// The numbers that are drawn from a seed, without end.
#[derive(Clone, Copy)]
struct Draws {
    state: u64,
}

impl Draws {
    fn from_seed(seed: u64) -> Draws {
        Draws {
            state: step(seed.wrapping_add(88172645463325252)),
        }
    }
}

impl Iterator for Draws {
    type Item = u64;

    fn next(&mut self) -> Option<u64> {
        self.state = step(self.state);
        Some(self.state)
    }
}

// Fills the first n of a buffer, each with what one more number that is drawn from the seed stands for.
pub(crate) fn fill<T: Copy, F: FnMut(u64) -> T>(buf: &mut [T], n: usize, seed: u64, mut value: F)
    requires { (state : F) (x : _) → F.pre state x }
{
    for (x, drawn) in buf.iter_mut().take(n).zip(Draws::from_seed(seed)) {
        *x = value(drawn);
    }
}

// The lowest byte of a drawn number: noise.
pub(crate) fn noise(drawn: u64) -> u8 {
    (drawn % 256) as u8
}

// What a picture is made of: noise, three levels, plateaus, a climb, a fall, one level, or white with a black pixel here and there.
#[derive(Clone, Copy)]
pub(crate) enum Picture {
    Noise,
    ThreeLevels,
    Plateaus,
    Climb,
    Fall,
    OneLevel,
    Specks,
}

impl From<u64> for Picture {
    fn from(kind: u64) -> Picture {
        match kind {
            0 => Picture::Noise,
            1 => Picture::ThreeLevels,
            2 => Picture::Plateaus,
            3 => Picture::Climb,
            4 => Picture::Fall,
            5 => Picture::OneLevel,
            _ => Picture::Specks,
        }
    }
}

impl Picture {
    // The pixel after one of value `last`, from a drawn number.
    fn after(self, last: u8, drawn: u64) -> u8 {
        match self {
            Picture::Noise => noise(drawn),
            Picture::ThreeLevels => (drawn % 3) as u8,
            Picture::Plateaus if drawn % 4 == 0 => noise(drawn / 256),
            Picture::Climb => last.wrapping_add((drawn % 3) as u8),
            Picture::Fall => last.wrapping_sub((drawn % 3) as u8),
            Picture::Plateaus | Picture::OneLevel => last,
            Picture::Specks if drawn % 8 == 0 => 0,
            Picture::Specks => 255,
        }
    }

    // Fills the first n bytes of a buffer with pixels.
    pub(crate) fn fill(self, buf: &mut [u8], n: usize, seed: u64) {
        let mut last = noise(seed);
        fill(buf, n, seed, |drawn| {
            last = self.after(last, drawn);
            last
        });
    }
}

// What the entries of a sums slice are: below a thousand, none, below 2^53, below 2^43, none or one, about 2^52, about a third of 2^53, a power of ten, one less than a power of ten,
// about 2^53, about the largest, or any number at all.
#[derive(Clone, Copy)]
pub(crate) enum Amount {
    Thousands,
    Nothing,
    Below53,
    Below43,
    Bits,
    About52,
    AboutThird,
    Powers,
    Nines,
    About53,
    Largest,
    Any,
}

impl From<u64> for Amount {
    fn from(kind: u64) -> Amount {
        match kind {
            0 => Amount::Thousands,
            1 => Amount::Nothing,
            2 => Amount::Below53,
            3 => Amount::Below43,
            4 => Amount::Bits,
            5 => Amount::About52,
            6 => Amount::AboutThird,
            8 => Amount::Powers,
            9 => Amount::Nines,
            10 => Amount::About53,
            11 => Amount::Largest,
            _ => Amount::Any,
        }
    }
}

// A power of ten that a sum can be.
fn power(drawn: u64) -> u64 {
    10u64.wrapping_pow((drawn % 20) as u32)
}

impl Amount {
    // An entry, from a drawn number.
    pub(crate) fn of(self, drawn: u64) -> u64 {
        match self {
            Amount::Thousands => drawn % 1000,
            Amount::Nothing => 0,
            Amount::Below53 => drawn >> 11,
            Amount::Below43 => drawn >> 21,
            Amount::Bits => drawn % 2,
            Amount::About52 => (1 << 52) + drawn % 2,
            Amount::AboutThird => (1 << 53) / 3 + drawn % 2,
            Amount::Powers => power(drawn),
            Amount::Nines => power(drawn).wrapping_sub(1),
            Amount::About53 => (1 << 53) - 1 + drawn % 3,
            Amount::Largest => u64::MAX - drawn % 2,
            Amount::Any => drawn,
        }
    }
}

// Fills the bytes from `from` to `to`, each with the one `period` before it.
pub(crate) fn repeat(buf: &mut [u8], from: usize, to: usize, period: usize) {
    for i in from..to.min(buf.len()) {
        buf[i] = buf[i - period.min(i)];
    }
}

// A checksum with one number more in it.
pub(crate) fn mixed(check: u64, x: u64) -> u64 {
    step(check.wrapping_add(x))
}

// The checksum of numbers, after that of others.
pub(crate) fn checked<T: Copy + Into<u64>>(before: u64, numbers: &[T]) -> u64 {
    numbers
        .iter()
        .fold(before, |check, x| mixed(check, (*x).into()))
}
