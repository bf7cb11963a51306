// The calls of the library, and which number a case file has for each.
use crate::buffers::{Buffers, front_mut};
use crate::got::{Got, answered, counted};
use crate::input::Case;
use crate::{frames, lines, texts, totals};
use frame::Direction;

#[derive(Clone, Copy, PartialEq, Eq)]
pub(crate) enum Call {
    Erode,
    Dilate,
    OpenLine,
    Stretches,
    Count,
    Enclosers,
    Row,
    Lines,
    Turned,
    Numbered,
    Measures,
    Pixels,
    Gather,
    Scatter,
    OpenFrame,
    Highest,
    SumsOfLine,
    SumsOfFrame,
    Rose,
    Summary,
    SumsText,
    ReadInput,
}

impl Call {
    // The numbers are those of the referee's file.
    pub(crate) fn numbered(number: u64) -> Option<Call> {
        Some(match number {
            1 => Call::Erode,
            2 => Call::Dilate,
            3 => Call::OpenLine,
            4 => Call::Stretches,
            5 => Call::Count,
            7 => Call::Enclosers,
            10 => Call::Row,
            11 => Call::Lines,
            12 => Call::Turned,
            13 => Call::Numbered,
            14 => Call::Measures,
            15 => Call::Pixels,
            20 => Call::Gather,
            21 => Call::Scatter,
            22 => Call::OpenFrame,
            23 => Call::Highest,
            30 => Call::SumsOfLine,
            31 => Call::SumsOfFrame,
            32 => Call::Rose,
            33 => Call::Summary,
            40 => Call::SumsText,
            41 => Call::ReadInput,
            _ => return None,
        })
    }

    // Makes the call with the arguments of a case, on as much of each buffer as the case lends.
    pub(crate) fn run(self, c: &Case, buffers: &mut Buffers<'_>) -> Got {
        let src = front_mut(&mut *buffers.src, c.src);
        let dst = front_mut(&mut *buffers.dst, c.dst);
        let directions = front_mut(&mut *buffers.directions, c.directions);
        let sums = front_mut(&mut *buffers.sums, c.entries());
        let scratch = front_mut(&mut *buffers.scratch, c.scratch);
        match self {
            Call::Erode => answered(line::erode(src, c.length, dst)),
            Call::Dilate => answered(line::dilate(src, c.length, dst)),
            Call::OpenLine => answered(line::open_line(src, c.length, dst, scratch)),
            Call::Stretches => lines::stretches(src, scratch),
            Call::Count => counted(stretch::count(src)),
            Call::Enclosers => lines::enclosers(c, src, scratch),
            Call::Row => frames::row(src, c.shape, c.length),
            Call::Lines => frames::lines(c.shape, c.direction),
            Call::Turned => frames::turned(c.direction),
            Call::Numbered => frames::pair(Direction::numbered(c.length)),
            Call::Measures => frames::measures(c.shape),
            Call::Pixels => frames::pixels(c.direction, c.length),
            Call::Gather => answered(gathering::gather(src, c.shape, c.direction, c.line, dst)),
            Call::Scatter => answered(gathering::scatter(src, c.shape, c.direction, c.line, dst)),
            Call::OpenFrame => answered(opening::open_frame(
                src,
                c.shape,
                c.direction,
                c.length,
                dst,
                scratch,
            )),
            Call::Highest => answered(opening::highest(
                src, c.shape, c.length, dst, directions, scratch,
            )),
            Call::SumsOfLine => answered(sizes::sums_of_line(src, sums, scratch)),
            Call::SumsOfFrame => answered(sizes::sums_of_frame(
                src,
                c.shape,
                c.direction,
                sums,
                scratch,
            )),
            Call::Rose => totals::rose(src, c.shape, scratch),
            Call::Summary => totals::summary(sums),
            Call::SumsText => answered(text::sums_text(c.length, sums, dst)),
            Call::ReadInput => texts::input(src, dst),
        }
    }
}
