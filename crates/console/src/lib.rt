// What both programs do with standard input and output, over any stream.
#![tactic(auto)]

ghost use Rattle.std.specs.Prelude.{◌≡◌, true, ℕ, ◌<◌, ◌≤◌, length, take, IfSome, IfNone};
ghost use Rattle.std.specs.Io.KnownBytes.{Appends, Consumes, IsAtEnd, Keeps};
ghost use Rattle.io.specs.Counts.{IsPrefixLen};
ghost use Rattle.text.specs.Stretches.{refusal_text};
ghost use Rattle.console.specs.Streams.{Receives, Refuses, Shows, WritesFront};

use std::io::{Error, ErrorKind, Read, Write};
use text::LONGEST_INPUT;

// What is read at most: one byte more than an input may have, so that a longer one is refused.
pub const ROOM: usize = LONGEST_INPUT + 1;

// The most pixels of an input: each takes two of its bytes.
pub const PIXELS: usize = LONGEST_INPUT / 2;

// How often a read or a write is tried that a signal interrupts each time before it moves a byte. Past that it has failed: nothing says that signals end, and
// every loop must. std's own loops, as that of `write_all`, try 2^64 times: a program would seem to hang.
const TRIES: usize = 1000000;

// A read failed: so many bytes stand at the front of the buffer, and what was to follow them is missing.
#[derive(Clone, Copy, Debug, PartialEq, Eq)]
pub struct Cut {
    pub count: usize,
}

// Whether a call that failed so has to be tried again.
fn is_interrupted(failure: &Error) -> bool {
    failure.kind() == ErrorKind::Interrupted
}

// Reading and writing have a loop of tries each. One loop over a closure would be no plainer: what a stream keeps where a try fails is one line of each loop's
// invariant, and over a closure an induction over its calls.

// Reads once to the front of buf, and hands back how many bytes: none where the input has ended. `None` where the read failed.
fn read_once<R: Read>(stream: &mut R, buf: &mut [u8]) -> Option<usize>
    ensures counted { IfSome result (λ n. IsPrefixLen n buf.new) }
    ensures taken { IfSome result (λ n. Consumes (R.remaining stream.old) (R.remaining stream.new) (take n buf.new)) }
    ensures ended { IfSome result (λ n. n ≡ 0 → 0 < length buf.old → IsAtEnd (R.remaining stream.new)) }
    ensures failed { IfNone result (Keeps (R.remaining stream.old) (R.remaining stream.new)) }
{
    for _ in 0..TRIES {
        match stream.read(buf) {
            Ok(count) => return Some(count),
            Err(failure) => {
                if !is_interrupted(&failure) {
                    return None;
                }
            }
        }
    }
    None
}

// Reads a stream to the front of buf until it ends, buf is full, or a read fails. Hands back how many bytes stand there: the whole input, or as much of it as
// there is room for.
pub fn receive<R: Read>(stream: &mut R, buf: &mut [u8]) -> Result<usize, Cut>
    ensures { Receives (R.remaining stream.old) (R.remaining stream.new) buf.old buf.new result }
{
    let mut count = 0;
    // No range counts this: how many bytes a read gives is up to the stream.
    while count < buf.len() {
        match read_once(stream, &mut buf[count..]) {
            None => return Err(Cut { count }),
            Some(0) => break,
            Some(more) => count += more,
        }
    }
    Ok(count)
}

// Writes once from the front of text, and hands back how many bytes. `None` where the write failed, or wrote none.
fn write_once<W: Write>(stream: &mut W, text: &[u8]) -> Option<usize>
    ensures counted { IfSome result (λ n. (0 < n) × (n ≤ length text.now)) }
    ensures written { IfSome result (λ n. Appends (W.contents stream.old) (W.contents stream.new) (take n text.now)) }
    ensures failed { IfNone result (Keeps (W.contents stream.old) (W.contents stream.new)) }
{
    for _ in 0..TRIES {
        match stream.write(text) {
            Ok(0) => return None,
            Ok(count) => return Some(count),
            Err(failure) => {
                if !is_interrupted(&failure) {
                    return None;
                }
            }
        }
    }
    None
}

// Writes a text to a stream, and stops at the first write that fails. Answers whether all of it is written.
fn write_whole<W: Write>(stream: &mut W, text: &[u8]) -> bool
    ensures { WritesFront (W.contents stream.old) (W.contents stream.new) text.now result }
{
    let mut rest = text;
    while !rest.is_empty() {
        let Some(n) = write_once(stream, rest) else {
            return false;
        };
        rest = &rest[n..];
    }
    true
}

// Writes the first n bytes of a text to a stream. Answers whether they are written: not where n is 0, which is how the calls that write texts say that
// they had no room, nor where the text has fewer. Text and n go apart, since `Shows` speaks of both.
pub fn show<W: Write>(stream: &mut W, text: &[u8], n: usize) -> bool
    ensures { Shows (W.contents stream.old) (W.contents stream.new) text.now n result }
{
    if n == 0 {
        return false;
    }
    if text.len() < n {
        return false;
    }
    write_whole(stream, &text[..n])
}

// Prints a refusal: its text has room for any number.
pub fn refuse<W: Write>(stream: &mut W, number: u32)
    ensures { Refuses (W.contents stream.old) (W.contents stream.new) number }
{
    let mut text = [0u8; 32];
    let n = text::refusal_text(u64::from(number), &mut text);
    show(stream, &text, n);
}
