// Why a numbered call refuses, the tests that its rules make, the limits that they name, and the pair of numbers that C gets.
#![tactic(auto)]

ghost use Rattle.std.specs.Prelude.{◌≡◌, ltb};
ghost use Rattle.answer.specs.Rules.{done, refusal, rule, checked, outside};
ghost use Rattle.answer.specs.Refusals.{rule_of, needed_of, counted, finished, Checks};

// The most pixels of a side, of a line and of a length, and the most bins of a size sum.
pub const LONGEST: usize = 4096;

// The largest stride of a frame.
pub const WIDEST: usize = 65535;

// The largest number of a direction's pair, its sign apart.
pub const STEEPEST: i64 = 255;

// The first rule that a call breaks; where something is too short, with how much is needed.
#[derive(Clone, Copy, Debug, PartialEq, Eq)]
pub enum Refusal {
    Size,
    Direction,
    Length,
    Sums,
    Source(usize),
    Destination(usize),
    Scratch(usize),
    Table(usize),
    Input,
    Dark,
    Bright,
}

impl Refusal {
    // The rule's number.
    pub fn number(self) -> u32
        ensures { result ≡ rule_of self }
    {
        match self {
            Refusal::Size => 1,
            Refusal::Direction => 2,
            Refusal::Length => 3,
            Refusal::Sums => 4,
            Refusal::Source(_) => 5,
            Refusal::Destination(_) => 6,
            Refusal::Scratch(_) => 7,
            Refusal::Table(_) => 8,
            Refusal::Input => 9,
            Refusal::Dark => 10,
            Refusal::Bright => 11,
        }
    }

    // How much is needed; 0 where nothing is too short.
    pub fn needed(self) -> usize
        ensures { result ≡ needed_of self }
    {
        match self {
            Refusal::Source(n)
            | Refusal::Destination(n)
            | Refusal::Scratch(n)
            | Refusal::Table(n) => n,
            _ => 0,
        }
    }

    // Refuses where the rule is broken.
    pub fn when(self, broken: bool) -> Result<(), Refusal>
        ensures { Checks broken self result }
    {
        if broken { Err(self) } else { Ok(()) }
    }

    // Refuses where less is there than is needed.
    pub fn unless_there(self, n: usize) -> Result<(), Refusal>
        ensures { Checks (ltb n (needed_of self)) self result }
    {
        self.when(n < self.needed())
    }
}

// What C gets of a call: the number of the rule that refused it, 0 where it is done; and the figure that goes with it.
#[repr(C)]
#[derive(Clone, Copy, Debug, PartialEq, Eq)]
pub struct Answer {
    pub number: u32,
    pub figure: u64,
}

// The library's own calls test their rules by `Refusal`, and `?`. Who builds an `Answer` by hand, as for a call of C's of its own, has these, which are public calls
// too (docs/ENGINES.md), and take any number.
impl Answer {
    pub fn done(figure: u64) -> Self
        ensures { result ≡ done figure }
    {
        Self { number: 0, figure }
    }

    pub fn refused(number: u32, figure: u64) -> Self
        ensures { result ≡ refusal number figure }
    {
        Self { number, figure }
    }

    // The answer once a rule is checked that hands back 0: a refusal stays, and else the rule refuses where it is broken.
    pub fn unless(self, number: u32, broken: bool) -> Self
        ensures { result ≡ checked self (rule broken number 0) }
    {
        if self.number == 0 && broken {
            Self::refused(number, 0)
        } else {
            self
        }
    }

    // The same of a rule that is broken where there are fewer than are needed, and hands back how many are.
    pub fn needing(self, number: u32, there: usize, needed: usize) -> Self
        ensures { result ≡ checked self (rule (ltb there needed) number needed) }
    {
        if self.number == 0 && there < needed {
            Self::refused(number, needed as u64)
        } else {
            self
        }
    }
}

impl From<Result<usize, Refusal>> for Answer {
    fn from(outcome: Result<usize, Refusal>) -> Answer
        ensures { result ≡ counted outcome }
    {
        match outcome {
            Ok(count) => Answer::done(count as u64),
            Err(refusal) => Answer::refused(refusal.number(), refusal.needed() as u64),
        }
    }
}

impl From<Result<(), Refusal>> for Answer {
    fn from(outcome: Result<(), Refusal>) -> Answer
        ensures { result ≡ finished outcome }
    {
        Answer::from(outcome.map(|()| 0usize))
    }
}

// Whether n is below lo or above hi.
pub fn is_outside(n: usize, lo: usize, hi: usize) -> bool
    ensures { result ≡ outside lo hi n }
{
    n < lo || hi < n
}
