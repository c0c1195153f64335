//! The calls by name, and what the comparison is asked.

/// The calls that are compared.
#[derive(Clone, Copy, PartialEq, Eq)]
pub enum Call {
    Test,
    Pieces,
    Breaks,
    Strict,
    Starts,
    Compare,
    Common,
    Part,
    Summary,
}

/// How many calls are compared.
pub const CALLS: usize = 9;

/// Two starts in a range. The library has a struct like it; what is compared with the library takes nothing from it.
#[derive(Clone, Copy)]
pub struct TwoStarts {
    pub first: usize,
    pub end: usize,
    pub start: usize,
    pub other: usize,
}

impl TwoStarts {
    /// The same starts, changed about.
    pub fn turned(self) -> TwoStarts {
        TwoStarts {
            start: self.other,
            other: self.start,
            ..self
        }
    }
}
