// The opening of a frame in a shallow direction, in place: the windows' length doubles from one pass to the next, and the marks are made anew for each pass. The buffer is
// lent to each step beside its sweep, for the reason that order.rt has.
ghost use Rattle.std.specs.Prelude.{◌≡◌, cond, ◌+◌, ◌-◌, ◌≤◌, ◌<◌};
ghost use Rattle.rows.specs.Rows.{byte_of, PixelsAre, OpensLines, OpensShallow};
ghost use Rattle.rows.specs.Slants.{Slanted, Dark, edge, meeting, Grows};

use crate::Pixel;
use crate::clear::clear_rows;
use crate::marks::mark_bends;
use crate::rules::can_open;
use crate::slant::Pass;
use answer::LONGEST;
use frame::{Direction, Shape, Sweep};

// How many columns a dilation goes over that is to reach the first n: whole blocks, or the whole row. It stores block after block from the last column back,
// and a store across two cache lines costs more than some dark columns.
fn whole_blocks(n: usize, most: usize) -> usize
    requires { (n ≤ most) × (most ≤ 4096) }
    ensures { (n ≤ result) × (result ≤ most) }
{
    most.min(n.next_multiple_of(64))
}

// The column from which on a pass takes all to be dark. After an erosion by windows of w columns: behind the last column where one begins. In the dilation:
// behind those that windows of w columns reach from the last column where one of `length` begins, or further on, up to a whole block.
fn first_dark(majors: usize, length: usize, w: usize, e: usize, darker: bool) -> usize
    requires { (1 ≤ w) × (w + e ≤ length) × (length ≤ majors) × (majors ≤ 4096) }
    ensures { (edge darker majors length w ≤ result) × (cond darker e 0 < result) × (cond darker 0 e + result ≤ majors) }
{
    if darker {
        majors + 1 - w
    } else {
        whole_blocks(majors - length + w + e, majors) - e
    }
}

// The first column of the pixels that meet others e columns on, or e columns before. The others' first column is what is left of e.
fn first_met(e: usize, darker: bool) -> usize
    ensures { (result ≡ cond darker 0 e) × (e - result ≡ cond darker e 0) × (result ≤ e) }
{
    if darker { 0 } else { e }
}

// One pass, from windows of w columns to those of w + e: each pixel meets that of its line e columns on, or e columns before. A dilation goes against the lines, so
// rows are counted from the first on in an erosion where lines rise, and in a dilation where they fall.
fn grow(
    buf: &mut [Pixel],
    bends: &mut [u8; LONGEST],
    s: Sweep,
    length: usize,
    w: usize,
    e: usize,
    darker: bool,
)
    requires { Slanted s buf.old × (1 ≤ w) × (w + e ≤ length) × (length ≤ s.majors) × Dark s (edge darker s.majors length w) buf.old }
    ensures { PixelsAre (byte_of s) s.majors s.minors (meeting darker s (cond darker 0 e) (cond darker e 0) buf.old) buf.old buf.new }
{
    let step = e * s.rise / s.run;
    let light = first_dark(s.majors, length, w, e, darker);
    let here = first_met(e, darker);
    let there = e - here;
    let marks = &mut bends[..light - there];
    let bent = mark_bends(marks, s.run, s.rise, e, step);
    let pass = Pass {
        sweep: s,
        darker,
        light,
        here,
        there,
        step,
        bends: bent.then_some(&*marks),
    };
    pass.run(buf);
}

// The erosion by windows of `length` columns, or from such an erosion to the opening.
fn grow_along(buf: &mut [Pixel], bends: &mut [u8; LONGEST], s: Sweep, length: usize, darker: bool)
    requires { Slanted s buf.old × (1 ≤ length) × (length ≤ s.majors) × Dark s (edge darker s.majors length 1) buf.old }
    ensures { Grows darker s length length buf.old buf.new × Dark s (edge darker s.majors length length) buf.new }
{
    // A `while`, since the step varies: it doubles, as long as it can.
    let mut w = 1;
    while w < length {
        let e = line::growth(w, length);
        grow(buf, bends, s, length, w, e, darker);
        w += e;
    }
}

// The erosion, and then its dilation. The marks of each pass stand in an array, which has one for each column that a frame can have.
fn open_along(buf: &mut [Pixel], s: Sweep, length: usize)
    requires { Slanted s buf.old × (1 ≤ length) }
    ensures { OpensLines s length buf.old buf.new }
{
    if s.majors < length {
        clear_rows(buf, s.sidestep, s.majors, 0, s.minors);
        return;
    }
    let mut bends: [u8; LONGEST] = [0; LONGEST];
    grow_along(buf, &mut bends, s, length, true);
    grow_along(buf, &mut bends, s, length, false);
}

// Opens the frame that stands in buf in a shallow direction. Where rule 1, 2 or 5 would refuse, the length is 0, or the direction is steep, nothing changes.
pub fn open_shallow(buf: &mut [Pixel], shape: Shape, d: Direction, length: usize)
    ensures { OpensShallow shape d length buf.old buf.new }
{
    if can_open(shape, d, length, buf.len()) && d.is_shallow() {
        open_along(buf, frame::sweep_of(shape, d), length);
    }
}
