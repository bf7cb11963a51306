// Numbers as decimal text. What writes a number or a line is inlined, down to its digits: where a text is only measured, the compiler sees that no bytes are lent.
ghost use Rattle.std.specs.Prelude.{◌≡◌, [], ◌∷◌, ◌+◌, ◌≤◌, length};
ghost use Rattle.text.specs.Decimal.{decimal};
ghost use Rattle.text.specs.Lines.{HasRoom, Puts};

// Writes a byte at `at`; where no bytes are lent it is only counted, so a text is measured by putting it into none. Hands back where the next byte goes.
// Here and in what follows dst and `at` are two parameters and no type: a call then reads as one sentence, `let end = put_field(dst, count, pixels)`.
#[inline(always)]
pub(crate) fn put_byte(dst: &mut [u8], at: usize, b: u8) -> usize
    requires { HasRoom dst.old at 1 }
    ensures { Puts dst.old at (b ∷ []) dst.new result }
{
    if at < dst.len() {
        dst[at] = b;
    }
    at + 1
}

// How many digits v has. It stands beside `put_digits`, since a test at each digit of whether it has a place makes printing take half as long again.
fn digit_count(v: u64) -> usize
    ensures { result ≡ length (decimal v) }
{
    if v < 10 {
        return 1;
    }
    digit_count(v / 10) + 1
}

// Writes v at `at`, where all its digits have a place. Hands back where the next byte goes.
fn put_digits(dst: &mut [u8], at: usize, v: u64) -> usize
    requires { at + length (decimal v) ≤ length dst.old }
    ensures { Puts dst.old at (decimal v) dst.new result }
{
    if v < 10 {
        dst[at] = b'0' + v as u8;
        return at + 1;
    }
    let p = put_digits(dst, at, v / 10);
    dst[p] = b'0' + (v % 10) as u8;
    p + 1
}

// Writes v at `at`, as `put_byte` does. Hands back where the next byte goes.
// By hand, since std's `Display` promises these bytes only where it returns `Ok`, and not that it does; `WritesSums` and `PrintsLine` promise a text wherever it has room.
#[inline(always)]
pub(crate) fn put_number(dst: &mut [u8], at: usize, v: u64) -> usize
    requires { HasRoom dst.old at (length (decimal v)) }
    ensures { Puts dst.old at (decimal v) dst.new result }
{
    if dst.is_empty() {
        return at + digit_count(v);
    }
    put_digits(dst, at, v)
}
