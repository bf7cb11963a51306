// The calls on a line that hand back more than an answer.
use crate::buffers::{front, front_mut, guarded};
use crate::draw::{checked, fill, mixed};
use crate::got::{Got, counted};
use crate::input::Case;
use stretch::Stretch;

// No line has more stretches than pixels; one turn more would be one too many.
const TURNS: u64 = 5001;

fn check_stretch(check: u64, z: Stretch) -> u64 {
    [z.start, z.end, z.level, z.base]
        .into_iter()
        .map(u64::from)
        .fold(check, mixed)
}

// The stretches one after the other: how many are found, and their checksum.
pub(crate) fn stretches(src: &[u8], scratch: &mut [u8]) -> Got {
    let mut bookmark = stretch::begin();
    let mut check = 1;
    for found in 0..TURNS {
        let Some(step) = stretch::next(src, scratch, bookmark) else {
            return Got {
                figure: found,
                first: check,
                ..Got::default()
            };
        };
        check = check_stretch(check, step.stretch);
        bookmark = step.bookmark;
    }
    Got {
        figure: TURNS,
        first: check,
        ..Got::default()
    }
}

// The fifth numbers of the stretches: how many are handed back, and the checksum of the places lent and the eight behind them, which hold noise before. The number is 1 where 0 is handed
// back: then the scratch is compared too. The places lent are 4,104 at most.
pub(crate) fn enclosers(c: &Case, src: &[u8], scratch: &mut [u8]) -> Got {
    let mut places = [0u16; 4112];
    fill(
        &mut places,
        guarded(c.dst),
        c.seed.wrapping_add(4),
        |drawn| (drawn % 65536) as u16,
    );
    let found = stretch::enclosers(src, front_mut(&mut places, c.dst), scratch);
    Got {
        number: u64::from(found == 0),
        first: checked(1, front(&places, guarded(c.dst))),
        ..counted(found)
    }
}
