// Lines of text: a letter, then fields, each a tab and a number, then a line feed. Inlined, as the numbers are.
ghost use Rattle.std.specs.Prelude.{◌≡◌, ◌∷◌, length};
ghost use Rattle.text.specs.Decimal.{decimal};
ghost use Rattle.text.specs.Lines.{tab, line_text, HasRoom, Puts};

use crate::decimal::{put_byte, put_number};

// Writes a field at `at`, as `put_byte` does. Hands back where the next byte goes.
#[inline(always)]
pub(crate) fn put_field(dst: &mut [u8], at: usize, v: u64) -> usize
    requires { HasRoom dst.old at (length (tab ∷ decimal v)) }
    ensures { Puts dst.old at (tab ∷ decimal v) dst.new result }
{
    let number = put_byte(dst, at, b'\t');
    put_number(dst, number, v)
}

// Writes a line at `at`, as `put_byte` does. Hands back where the next one goes.
#[inline(always)]
pub(crate) fn put_line(dst: &mut [u8], at: usize, letter: u8, fields: &[u64]) -> usize
    requires { HasRoom dst.old at (length (line_text letter fields.now)) }
    ensures { Puts dst.old at (line_text letter fields.now) dst.new result }
{
    let mut next = put_byte(dst, at, letter);
    for field in fields {
        next = put_field(dst, next, *field);
    }
    put_byte(dst, next, b'\n')
}
