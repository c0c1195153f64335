//! The comparison of two suffixes within a range.
ghost use Rattle.std.specs.Prelude.{◌≡◌, []};
ghost use Rattle.checks.specs.Lines.{tried, record_lines};
ghost use Rattle.checks.specs.Answers.{outcome};
ghost use Rattle.compare.specs.Compare.{compare_lines, comparison_says, Compared};

use checks::{Record, Refusal};
use letters::Order;

/// Two starts in a range of a record: the range's first place and its end, the one start and the other.
#[derive(Clone, Copy)]
pub struct Starts {
    pub first: usize,
    pub end: usize,
    pub start: usize,
    pub other: usize,
}

// The range of a word of so many letters, the one start, the other.
fn admit(letters: usize, starts: Starts) -> Result<(), Refusal>
    ensures { outcome result ≡ tried (compare_lines letters starts.first starts.end starts.start starts.other) }
{
    checks::check_range(letters, starts.first, starts.end)?;
    checks::check_start(starts.first, starts.end, starts.start)?;
    checks::check_start(starts.first, starts.end, starts.other)
}

/// The comparison in an accepted record: the call's own lines, 5 and 6, and its work.
pub fn compare_within(admitted: Record, starts: Starts) -> Result<Order, Refusal>
    ensures { Compared [] admitted.entry.letters.now
        starts.first starts.end starts.start starts.other (comparison_says result) }
{
    let word = admitted.letters;
    admit(word.len(), starts)?;
    Ok(common::compare_words(
        &word[starts.start..starts.end],
        &word[starts.other..starts.end],
    ))
}

/// Compares the remainders of a range from two starts on, in the inverse order: `Less` if that of the one start comes
/// first, `Equal` if the starts are equal; and counts how many of their leading letters are equal. Refusals 1, 2, 5, 6.
pub fn compare_suffixes(word: &[u8], starts: Starts) -> Result<Order, Refusal>
    ensures { Compared (record_lines word.now) word.now
        starts.first starts.end starts.start starts.other (comparison_says result) }
{
    let admitted = Record::admit(word)?;
    compare_within(admitted, starts)
}
