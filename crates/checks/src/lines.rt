//! The lines of the table that not every call tries, a function for each. Those for work and for the result differ in the
//! line alone; as one function its callers would choose the number.
ghost use Rattle.std.specs.Prelude.{◌≡◌, [], ◌∷◌, length};
ghost use Rattle.words.specs.Pairs.{ends_of};
ghost use Rattle.checks.specs.Lines.{tried, work_line, result_line, range_line, start_line, pairs_line, number_line, mark_line, record_ends_line};
ghost use Rattle.checks.specs.Answers.{outcome};

use super::refusals::Refusal;
use conditions::{faulty_record_ends, is_marked};

/// Line 3: entries lent for work, entries needed.
pub fn check_work(entries: usize, needed: usize) -> Result<(), Refusal>
    ensures { outcome result ≡ tried (work_line entries needed ∷ []) }
{
    Refusal::WorkTooShort.when(entries < needed)
}

/// Line 4: entries lent for the result, entries that the answer has.
pub fn check_result(entries: usize, needed: usize) -> Result<(), Refusal>
    ensures { outcome result ≡ tried (result_line entries needed ∷ []) }
{
    Refusal::ResultTooShort.when(entries < needed)
}

/// Line 5: the range from `first` to `end` of a record of so many letters.
pub fn check_range(letters: usize, first: usize, end: usize) -> Result<(), Refusal>
    ensures { outcome result ≡ tried (range_line letters first end ∷ []) }
{
    Refusal::BadRange.when((end <= first) | (letters < end))
}

/// Line 6: a start of the range from `first` to `end`.
pub fn check_start(first: usize, end: usize, start: usize) -> Result<(), Refusal>
    ensures { outcome result ≡ tried (start_line first end start ∷ []) }
{
    Refusal::BadStart.when((start < first) | (end <= start))
}

/// Line 7: a list of pairs for a record of so many letters.
pub fn check_pairs(pairs: &[u16], letters: usize) -> Result<(), Refusal>
    ensures { outcome result ≡ tried (pairs_line pairs.now letters ∷ []) }
{
    Refusal::FaultyPairs.when(pairs::faulty_pairs(pairs, letters))
}

/// Line 8: a part's number against the number of ends.
pub fn check_number(number: usize, count: usize) -> Result<(), Refusal>
    ensures { outcome result ≡ tried (number_line number count ∷ []) }
{
    Refusal::NoSuchPart.when(count <= number)
}

/// Lines 7 and 8: a list of pairs for a record of so many letters, and a part's number.
pub fn check_part(pairs: &[u16], letters: usize, number: usize) -> Result<(), Refusal>
    ensures { outcome result ≡ tried (pairs_line pairs.now letters ∷ number_line number (length (ends_of pairs.now)) ∷ []) }
{
    check_pairs(pairs, letters)?;
    check_number(number, pairs::count(pairs))
}

/// Line 9: a record that holds the separator.
pub fn check_marks(word: &[u8]) -> Result<(), Refusal>
    ensures { outcome result ≡ tried (mark_line word.now ∷ []) }
{
    Refusal::Marked.when(is_marked(word))
}

/// Line 10: a list of record ends for so many bytes.
pub fn check_record_ends(record_ends: &[u32], bytes: usize) -> Result<(), Refusal>
    ensures { outcome result ≡ tried (record_ends_line record_ends.now bytes ∷ []) }
{
    Refusal::FaultyRecordEnds.when(faulty_record_ends(record_ends, bytes))
}
