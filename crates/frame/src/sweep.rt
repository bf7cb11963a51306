// The lines of a frame in one direction, in unsigned numbers.
ghost use Rattle.std.specs.Prelude.{◌≡◌, ◌≤◌, ◌&&◌, false, MatchOption};
ghost use Rattle.answer.specs.Limits.{longest, steepest};
ghost use Rattle.frame.specs.Direction.{is_direction};
ghost use Rattle.frame.specs.Shape.{is_frame};
ghost use Rattle.frame.specs.Lines.{r};
ghost use Rattle.frame.specs.Sweep.{sweep_of, sweep_for, shift_at, low, lines, Accepted, Sane};

use crate::direction::Direction;
use crate::shape::Shape;
use answer::{LONGEST, STEEPEST};

// How many major and minor coordinates there are; how many bytes of the frame it is from one major coordinate to the next (`pace`) and from one minor coordinate
// to the next (`sidestep`); the slope; and how far a line moves aside from its first major coordinate to the last.
#[derive(Clone, Copy, PartialEq, Eq, Debug)]
pub struct Sweep {
    pub majors: usize,
    pub minors: usize,
    pub pace: usize,
    pub sidestep: usize,
    pub run: usize,
    pub rise: usize,
    pub falling: bool,
    pub top: usize,
}

// What `sweep_of` hands back for a frame or a direction that is refused: a sweep without a line.
const NONE: Sweep = Sweep {
    majors: 0,
    minors: 0,
    pace: 0,
    sidestep: 0,
    run: 0,
    rise: 0,
    falling: false,
    top: 0,
};

impl Sweep {
    // How far below 0 the lowest line number is.
    #[tactic(auto, unfolding(crate::specs::Sweep::low))]
    pub(crate) fn low(self) -> usize
        ensures { result ≡ low self }
    {
        if self.falling { 0 } else { self.top }
    }

    // How many lines there are.
    #[tactic(auto, using(crate::proofs::Shapes::top_less))]
    pub(crate) fn lines(self) -> usize
        requires { Sane self }
        ensures { result ≡ lines self }
    {
        self.minors + self.top
    }
}

// How far aside a line has moved at a major coordinate, rounded.
// It takes the two numbers of the slope, not a struct that keeps their bounds: `Sweep` has them as public fields, from which the crate `rows` makes sweeps too, and
// `shift_at` takes any sweep, so it has to test them.
#[tactic(auto, unfolding(crate::specs::Lines::r))]
fn rounded(run: usize, rise: usize, i: usize) -> usize
    requires { (1 ≤ run) × (run ≤ steepest) × (rise ≤ run) × (i ≤ longest) }
    ensures { result ≡ r run rise i }
{
    (2 * i * rise + run) / (2 * run)
}

// The sweep of an accepted frame in an accepted direction.
fn swept(shape: Shape, d: Direction) -> Sweep
    requires { Accepted shape d }
    ensures { result ≡ sweep_of shape d }
{
    let steps = d.steps();
    let (majors, minors, pace, sidestep) = if steps.rows <= steps.columns {
        (shape.width, shape.height, 1, shape.stride)
    } else {
        (shape.height, shape.width, shape.stride, 1)
    };
    let run = steps.columns.max(steps.rows);
    let rise = steps.columns.min(steps.rows);
    Sweep {
        majors,
        minors,
        pace,
        sidestep,
        run,
        rise,
        falling: d.is_opposed(),
        top: rounded(run, rise, majors - 1),
    }
}

// The sweep of a frame in a direction, where rules 1 and 2 accept them.
pub(crate) fn accepted(shape: Shape, d: Direction) -> Option<Sweep>
    ensures { MatchOption result ((is_frame shape && is_direction d) ≡ false) (λ s. Accepted shape d × (s ≡ sweep_of shape d)) }
{
    if shape.is_frame() && d.is_direction() {
        Some(swept(shape, d))
    } else {
        None
    }
}

// The sweep of a frame in a direction; one without a line where rule 1 or 2 refuses them.
// Not an `Option`, since `sweep_for` of specs/Sweep answers every frame and direction.
pub fn sweep_of(shape: Shape, d: Direction) -> Sweep
    ensures { result ≡ sweep_for shape d }
{
    accepted(shape, d).unwrap_or(NONE)
}

// The index of the line of the pixel with major coordinate i and minor coordinate 0: how far aside the lines stand there. 0 where the slope is none that a
// direction has, or i is past every frame.
// Not an `Option`, since `shift_at` of specs/Sweep has that 0, and every sweep can be asked.
#[tactic(auto, unfolding(crate::specs::Sweep::shift))]
pub fn shift_at(s: Sweep, i: usize) -> usize
    ensures { result ≡ shift_at s i }
{
    if !(1..=STEEPEST as usize).contains(&s.run) || s.run < s.rise || LONGEST < i {
        return 0;
    }
    let aside = rounded(s.run, s.rise, i);
    if s.falling {
        aside
    } else {
        s.top.saturating_sub(aside)
    }
}
