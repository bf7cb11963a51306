// The open runs of a reading, as they lie in the lent scratch: a stack of four bytes a run, two of start, one of level and one free.
// How many are open is no part of it: that number goes to the caller and comes back with the bookmark, and the bytes are the caller's.
// The level is stored and read as one byte: two bytes stored apart and read as a pair would make the reading wait.
ghost use Rattle.std.specs.Prelude.{◌≡◌, ◌∷◌, suc, ◌+◌, ◌*◌, ◌≤◌, length};
ghost use Rattle.bright.specs.Reading.{top_level, top_start};
ghost use Rattle.bright.specs.Generator.{pair_at, put_pair, run8, stack_of};

use crate::Pixel;

pub(crate) fn pair_at(scratch: &[u8], at: usize) -> u16
    requires { at + 2 ≤ length scratch.now }
    ensures { result ≡ pair_at scratch.now at }
{
    u16::from_le_bytes([scratch[at], scratch[at + 1]])
}

pub(crate) fn put_pair(scratch: &mut [u8], at: usize, x: u16)
    requires { at + 2 ≤ length scratch.old }
    ensures { scratch.new ≡ put_pair scratch.old at x }
{
    [scratch[at], scratch[at + 1]] = x.to_le_bytes();
}

// Stores a run as number i; those before it stay.
pub(crate) fn put(scratch: &mut [u8], i: usize, start: u16, level: Pixel)
    requires { 4 * i + 4 ≤ length scratch.old }
    ensures { stack_of run8 scratch.new (suc i) ≡ record { start = start; level = level } ∷ stack_of run8 scratch.old i }
{
    let at = 4 * i;
    put_pair(scratch, at, start);
    scratch[at + 2] = level;
}

// The level of the topmost of `depth` runs, 0 where there is none, as beyond the line: `top_level` of bright/specs/Reading has that 0.
pub(crate) fn top_level(scratch: &[u8], depth: usize) -> Pixel
    requires { 4 * depth ≤ length scratch.now }
    ensures { result ≡ top_level (stack_of run8 scratch.now depth) }
{
    if depth == 0 {
        return 0;
    }
    scratch[4 * (depth - 1) + 2]
}

// The start of the topmost of `depth` runs, 0 where there is none.
pub(crate) fn top_start(scratch: &[u8], depth: usize) -> u16
    requires { 4 * depth ≤ length scratch.now }
    ensures { result ≡ top_start (stack_of run8 scratch.now depth) }
{
    if depth == 0 {
        return 0;
    }
    pair_at(scratch, 4 * (depth - 1))
}
