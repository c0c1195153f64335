//! A record at a call's door.
ghost use Rattle.std.specs.Prelude.{◌≡◌, IfOk};
ghost use Rattle.checks.specs.Lines.{tried, record_lines, Accepted};
ghost use Rattle.checks.specs.Answers.{outcome};

use super::refusals::Refusal;

/// The most letters that a record may have.
pub const MOST: usize = 4096;

/// A record that passed the lines of every record.
#[derive(Clone, Copy)]
pub struct Record<'a> {
    pub letters: &'a [u8],
    pub ghost accepted: { Accepted letters.now },
}

impl<'a> Record<'a> {
    /// Lines 1 and 2: the record's length.
    pub fn admit(letters: &'a [u8]) -> Result<Record<'a>, Refusal>
        ensures says { outcome result ≡ tried (record_lines letters.now) }
        ensures same { IfOk result (λ r. r.letters.now ≡ letters.now) }
    {
        let n = letters.len();
        Refusal::Empty.when(n == 0)?;
        Refusal::TooLong.when(MOST < n)?;
        Ok(Record { letters })
    }
}
