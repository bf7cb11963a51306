// The calls on a frame, on its shape and on a direction that hand back more than an answer.
use crate::draw::{checked, mixed};
use crate::got::{Got, counted};
use frame::{Direction, Shape};

// The lent row's length and checksum.
pub(crate) fn row(src: &[u8], shape: Shape, y: usize) -> Got {
    let part = gathering::row(src, shape, y);
    Got {
        first: checked(1, part),
        ..counted(part.len())
    }
}

pub(crate) fn lines(shape: Shape, d: Direction) -> Got {
    let lines = frame::lines_of(shape, d);
    Got {
        first: lines.first.cast_unsigned(),
        ..counted(lines.count)
    }
}

// The two numbers of a direction.
pub(crate) fn pair(d: Direction) -> Got {
    Got {
        first: d.p.cast_unsigned(),
        second: d.q.cast_unsigned(),
        ..Got::default()
    }
}

// Whether a pair is a direction, whether it is shallow, and what it is turned by a quarter.
pub(crate) fn turned(d: Direction) -> Got {
    Got {
        number: u64::from(d.is_direction()),
        figure: u64::from(d.is_shallow()),
        ..pair(d.turned())
    }
}

pub(crate) fn measures(shape: Shape) -> Got {
    Got {
        number: u64::from(shape.is_frame()),
        ..counted(shape.bytes())
    }
}

// What a length stands for, and the checksum of what every length from 0 to it does; none past 4,098 is asked, which already stands for nothing.
pub(crate) fn pixels(d: Direction, length: usize) -> Got {
    Got {
        first: (0..=length.min(4098)).fold(
            1,
            |check, shorter| mixed(check, d.pixels_for(shorter) as u64),
        ),
        ..counted(d.pixels_for(length))
    }
}
