//! The lines of the table by name.
ghost use Rattle.std.specs.Prelude.{◌≡◌, [], ◌∷◌};
ghost use Rattle.checks.specs.Lines.{◌when◌, tried};
ghost use Rattle.checks.specs.Answers.{number_of, outcome};

/// Why a call refuses: the line of the table that is met. The variants stand in the table's order, and their values are
/// its numbers.
#[derive(Clone, Copy, Debug, PartialEq, Eq, Drop)]
pub enum Refusal {
    /// The record is empty.
    Empty = 1,
    /// The record is too long.
    TooLong = 2,
    /// The work buffer has fewer entries than are needed.
    WorkTooShort = 3,
    /// A result buffer has fewer entries than the answer.
    ResultTooShort = 4,
    /// The range is empty, or ends past the record.
    BadRange = 5,
    /// A start lies outside the range.
    BadStart = 6,
    /// The list of pairs is faulty.
    FaultyPairs = 7,
    /// The list has no part of that number.
    NoSuchPart = 8,
    /// The record holds the separator.
    Marked = 9,
    /// The list of record ends is faulty.
    FaultyRecordEnds = 10,
}

impl Refusal {
    /// A line of the table: refused by it where its condition is met.
    pub fn when(self, met: bool) -> Result<(), Refusal>
        ensures { outcome result ≡ tried (number_of self when met ∷ []) }
    {
        if met { Err(self) } else { Ok(()) }
    }
}

impl From<Refusal> for u8 {
    ghost from_gives = { λ refusal number. number ≡ number_of refusal };

    /// The line's number.
    fn from(refusal: Refusal) -> u8 {
        refusal as u8
    }
}
