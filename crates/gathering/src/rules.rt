// The rules of the calls on a line: those of gathering and of scattering differ in which buffer holds the frame.
ghost use Rattle.std.specs.Prelude.{◌≡◌};
ghost use Rattle.answer.specs.Rules.{answer};
ghost use Rattle.answer.specs.Refusals.{counted};
ghost use Rattle.gathering.specs.Steps.{frame_line_rules};

use answer::Refusal;

// Rules 1, 2, 5 and 6 for a line of `count` pixels, none where the frame has no such line: a source of `size` bytes, of which `from` are read, and a
// destination of `room` bytes, of which `to` may be written. Hands back the count.
pub(crate) fn tested(
    framed: bool,
    count: usize,
    size: usize,
    from: usize,
    room: usize,
    to: usize,
) -> Result<usize, Refusal>
    ensures { counted result ≡ answer (frame_line_rules framed count size from room to) count }
{
    Refusal::Size.when(!framed)?;
    Refusal::Direction.when(count == 0)?;
    Refusal::Source(from).unless_there(size)?;
    Refusal::Destination(to).unless_there(room)?;
    Ok(count)
}
