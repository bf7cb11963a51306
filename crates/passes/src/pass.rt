// A pass over a row, in place. It goes the way on which it finds what it has yet to read as it was: upward where the partners begin at the row or behind it,
// downward where they begin before it. The last two blocks overlap, so that nothing is left to go one by one: both are made before either is stored.
ghost use Rattle.std.specs.Prelude.{◌≡◌, ◌↔◌, IsTrue, true, false, cond, ℕ, ◌+◌, ◌-◌, ◌*◌, ◌/◌, ◌≤◌, ◌<◌, max, length, get_or};
ghost use Rattle.lists.specs.Stores.{Filled};
ghost use Rattle.passes.specs.Passes.{op, straight, bent, met, block_at, treated_from, treated_to, Ahead, Fits, Parted, Keeps, Meets, MeetsBent};

use crate::Pixel;
use crate::partner::{Bent, Partner, Straight, of_two};

// Where block k of a row of n pixels begins: the pass takes the first block first where it goes upward, else the last.
fn block_at(n: usize, k: usize, up: bool) -> usize
    requires { 64 * k + 64 ≤ n }
    ensures { (result ≡ block_at n k up) × (result + 64 ≤ n) }
{
    if up { 64 * k } else { n - 64 * k - 64 }
}

// The first n pixels of the block come to `at`. Not by `copy_from_slice`, which costs speed here as in fill.rt.
fn store(buf: &mut [Pixel], at: usize, block: [Pixel; 64], n: usize)
    requires { (n ≤ 64) × (at + n ≤ length buf.old) }
    ensures { Filled buf.old buf.new at (at + n) (λ (k : ℕ). get_or block (k - at) 0) }
{
    for k in 0..n {
        buf[at + k] = block[k];
    }
}

// What n pixels become, from pixel i of the row on. A pass has read all of a block before it writes any of it, so it works in place and compiles to vector
// instructions. What a pass needs goes by values, and not as a struct with methods: behind `&self` the loop over the blocks asks for each of them which of the
// two and which way, and slanted lines take a tenth longer.
fn made<P: Partner + Copy>(
    buf: &[Pixel],
    at: usize,
    partner: P,
    i: usize,
    n: usize,
    darker: bool,
) -> [Pixel; 64]
    requires { (n ≤ 64) × (at + i + n ≤ length buf.now) × ((k : ℕ) → k < n → P.Within partner (i + k) (length buf.now)) }
    ensures { (k : ℕ) → k < n → get_or result k 0 ≡ op darker (get_or buf.now (at + (i + k)) 0) (P.of partner buf.now (i + k)) }
{
    let mut made: [Pixel; 64] = [0; 64];
    for (k, pixel) in made[..n].iter_mut().enumerate() {
        let j = i + k;
        *pixel = of_two(buf[at + j], partner.of(buf, j), darker);
    }
    made
}

// Each pixel of the `count` blocks that the pass takes first becomes the darker or the brighter of itself and its partner.
fn run_blocks<P: Partner + Copy>(
    buf: &mut [Pixel],
    at: usize,
    partner: P,
    n: usize,
    count: usize,
    up: bool,
    darker: bool,
)
    requires row { at + n ≤ length buf.old }
    requires partners { (j : ℕ) → j < n → P.Within partner j (length buf.old) }
    requires keeps { Keeps up (P.of partner) at n }
    requires blocks { 64 * count ≤ n }
    ensures { Filled buf.old buf.new (at + treated_from n count up) (at + treated_to n count up) (met (op darker) (P.of partner) at buf.old) }
{
    for k in 0..count {
        let i = block_at(n, k, up);
        let block = made(buf, at, partner, i, 64, darker);
        store(buf, at + i, block, 64);
    }
}

// The same of all n pixels: up to 64 as one block.
fn run<P: Partner + Copy>(
    buf: &mut [Pixel],
    at: usize,
    partner: P,
    n: usize,
    up: bool,
    darker: bool,
)
    requires row { at + n ≤ length buf.old }
    requires partners { (j : ℕ) → j < n → P.Within partner j (length buf.old) }
    requires keeps { Keeps up (P.of partner) at n }
    ensures { Filled buf.old buf.new at (at + n) (met (op darker) (P.of partner) at buf.old) }
{
    if n < 65 {
        let block = made(buf, at, partner, 0, n, darker);
        store(buf, at, block, n);
        return;
    }
    let count = (n - 65) / 64;
    let i = block_at(n, count, up);
    let j = n - 64 - block_at(n, 0, up);
    run_blocks(buf, at, partner, n, count, up, darker);
    let next = made(buf, at, partner, i, 64, darker);
    let last = made(buf, at, partner, j, 64, darker);
    store(buf, at + i, next, 64);
    store(buf, at + j, last, 64);
}

// Whether the n pixels from `at` on are among `size`.
pub(crate) fn is_within(size: usize, at: usize, n: usize) -> bool
    ensures { IsTrue result ↔ (at + n ≤ size) }
{
    at <= size && n <= size - at
}

fn is_ahead(at: usize, from: usize, n: usize) -> bool
    ensures { IsTrue result ↔ Ahead at from n }
{
    at <= from || n <= at - from
}

// Each of the n pixels from `at` on becomes the darker of itself and its partner among those from `from` on, or the brighter. Where one of them is not in the
// buffer, nothing changes.
pub fn meet(buf: &mut [Pixel], at: usize, from: usize, n: usize, darker: bool)
    ensures { Meets darker at from n buf.old buf.new }
{
    if is_within(buf.len(), at.max(from), n) {
        run(buf, at, Straight { from }, n, at <= from, darker);
    }
}

// Whether three rows of n pixels are among `size`, and each pixel has its mark.
fn is_fitting(size: usize, marks: usize, at: usize, near: usize, far: usize, n: usize) -> bool
    ensures { IsTrue result ↔ Fits marks at near far n size }
{
    n <= marks && is_within(size, at.max(near).max(far), n)
}

fn is_parted(at: usize, near: usize, far: usize, n: usize) -> bool
    ensures { IsTrue result ↔ Parted at near far n }
{
    if at <= near {
        is_ahead(at, far, n)
    } else {
        is_ahead(far, at, n)
    }
}

// The same with a partner among those from `near` on, or from `far` on where it is marked; where the pass would change pixels from `far` on before it reads
// them, nothing changes either. No marks at all say that none is marked.
pub fn meet_bent(
    buf: &mut [Pixel],
    bends: &[u8],
    at: usize,
    near: usize,
    far: usize,
    n: usize,
    darker: bool,
)
    ensures { MeetsBent darker bends.now at near far n buf.old buf.new }
{
    if bends.is_empty() {
        meet(buf, at, near, n, darker);
    } else if is_fitting(buf.len(), bends.len(), at, near, far, n) && is_parted(at, near, far, n) {
        let partner = Bent {
            marks: bends,
            near,
            far,
        };
        run(buf, at, partner, n, at <= near, darker);
    }
}
