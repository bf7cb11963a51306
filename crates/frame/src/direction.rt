// Directions, and the sixteen that have a number.
ghost use Rattle.std.specs.Prelude.{◌≡◌, true, nat_abs};
ghost use Rattle.frame.specs.Direction.{in_range, is_direction, shallow, goes_down, straight, opposite, turned_of, numbered_of};
ghost use Rattle.frame.specs.Length.{is_measured, pixels_or_none, counts_of};

use crate::length::Steps;
use answer::{LONGEST, STEEPEST};

// A direction (p, q): p columns to the right for q rows down.
#[derive(Clone, Copy, PartialEq, Eq, Debug)]
pub struct Direction {
    pub p: i64,
    pub q: i64,
}

// The sixteen numbered directions, the two with a name among them: what `numbered` promises settles these too.
const NUMBERED: [Direction; 16] = [
    Direction::Along,
    Direction { p: 4, q: 1 },
    Direction { p: 2, q: 1 },
    Direction { p: 4, q: 3 },
    Direction { p: 1, q: 1 },
    Direction { p: 3, q: 4 },
    Direction { p: 1, q: 2 },
    Direction { p: 1, q: 4 },
    Direction::Across,
    Direction { p: -1, q: 4 },
    Direction { p: -1, q: 2 },
    Direction { p: -3, q: 4 },
    Direction { p: -1, q: 1 },
    Direction { p: -4, q: 3 },
    Direction { p: -2, q: 1 },
    Direction { p: -4, q: 1 },
];

impl Direction {
    pub const Along: Direction = Direction { p: 1, q: 0 };

    pub const Across: Direction = Direction { p: 0, q: 1 };

    // The direction of a number; above 15 the pair (0, 0), which every call refuses.
    // Not an `Option`, since `numbered_of` of specs/Direction gives every number a pair.
    pub fn numbered(n: usize) -> Direction
        ensures { result ≡ numbered_of n }
    {
        NUMBERED.get(n).copied().unwrap_or(Direction { p: 0, q: 0 })
    }

    // The direction turned by a quarter; a pair out of range comes back as it was.
    pub fn turned(self) -> Direction
        ensures { result ≡ turned_of self }
    {
        if self.in_range() {
            Direction {
                p: -self.q,
                q: self.p,
            }
        } else {
            self
        }
    }

    // Whether x, and not y, ascends along the lines of this direction.
    pub fn is_shallow(self) -> bool
        ensures { result ≡ shallow self }
    {
        self.q.unsigned_abs() <= self.p.unsigned_abs()
    }

    // Whether lines of this direction go down the rows, one pixel a row: the steep ones and the diagonals.
    pub fn goes_down(self) -> bool
        ensures { result ≡ goes_down self }
    {
        self.p.unsigned_abs() <= self.q.unsigned_abs()
    }

    // Whether lines of this direction are rows or columns, where a length counts pixels.
    pub fn is_straight(self) -> bool
        ensures { result ≡ straight self }
    {
        self.p == 0 || self.q == 0
    }

    // Whether the two numbers have opposite signs.
    pub(crate) fn is_opposed(self) -> bool
        ensures { result ≡ opposite self }
    {
        (self.p < 0 && 0 < self.q) || (0 < self.p && self.q < 0)
    }

    // Whether each number of the pair is in its range.
    fn in_range(self) -> bool
        ensures { result ≡ in_range self }
    {
        (-STEEPEST..=STEEPEST).contains(&self.p) && (-STEEPEST..=STEEPEST).contains(&self.q)
    }

    // Whether the pair is in its range, and not (0, 0).
    pub fn is_direction(self) -> bool
        ensures { result ≡ is_direction self }
    {
        self.in_range() && (self.p != 0 || self.q != 0)
    }

    // The pair without its signs.
    pub(crate) fn steps(self) -> Steps
        requires { in_range self ≡ true }
        ensures columns { result.columns ≡ nat_abs self.p }
        ensures rows { result.rows ≡ nat_abs self.q }
    {
        Steps {
            columns: self.p.unsigned_abs() as usize,
            rows: self.q.unsigned_abs() as usize,
        }
    }

    // Whether this is a direction, and the length one that a call on frames may ask for: the rest of 4,096 bins asks for 4,097.
    fn measures(self, length: usize) -> bool
        ensures { result ≡ is_measured self length }
    {
        self.is_direction() && (1..=LONGEST + 1).contains(&length)
    }

    // How many pixels along its lines a length stands for; 0 where the pair is no direction, or the length is 0 or above 4,097.
    // Not an `Option`, since `pixels_or_none` of specs/Length has that 0: every length stands for a pixel at least.
    pub fn pixels_for(self, length: usize) -> usize
        ensures { result ≡ pixels_or_none self length }
    {
        if !self.measures(length) {
            0
        } else if self.is_straight() {
            length
        } else {
            self.steps().count_for(length)
        }
    }

    // The same of each length from 1 up, as many as `counts` has entries. Nothing changes where the pair is no direction, or there is no entry or more than 4,097.
    pub fn count_lengths(self, counts: &mut [u16])
        ensures { counts.new ≡ counts_of self counts.old }
    {
        if self.measures(counts.len()) {
            self.steps().count_each(counts);
        }
    }
}
