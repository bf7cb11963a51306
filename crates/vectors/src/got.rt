// What a call handed back, in the four numbers that are printed of it.
use answer::Answer;

#[derive(Clone, Copy, Default)]
pub(crate) struct Got {
    pub number: u64,
    pub figure: u64,
    pub first: u64,
    pub second: u64,
}

// Of a numbered call: number and figure of its answer.
pub(crate) fn answered<A: Into<Answer>>(outcome: A) -> Got {
    let Answer { number, figure } = outcome.into();
    Got {
        number: u64::from(number),
        figure,
        ..Got::default()
    }
}

// Of a call that counts, or looks a size up.
pub(crate) fn counted(n: usize) -> Got {
    Got {
        figure: n as u64,
        ..Got::default()
    }
}

// Of a case whose call has no number here.
pub(crate) fn nothing() -> Got {
    Got {
        number: 99,
        ..Got::default()
    }
}
