//! The conditions of the table of refusals that are looked for in a loop.
#![tactic(auto)]

ghost use Rattle.std.specs.Prelude.{◌≡◌};
ghost use Rattle.words.specs.Separated.{has_mark};
ghost use Rattle.conditions.specs.Conditions.{are_faulty_record_ends};

/// The most records that a batch may have.
pub const MOST_RECORDS: usize = 64;

/// Whether the word holds the separator. Every letter is looked at, without a branch, so that the compiler can look at
/// many at once.
pub fn is_marked(word: &[u8]) -> bool
    ensures { result ≡ has_mark word.now }
{
    let mut marked = false;
    for letter in word {
        marked |= *letter == words::SEPARATOR;
    }
    marked
}

/// Whether a list of record ends is empty or too long, falls somewhere, or does not end at the number of bytes.
pub fn faulty_record_ends(record_ends: &[u32], bytes: usize) -> bool
    ensures { result ≡ are_faulty_record_ends record_ends.now bytes }
{
    let Some(last) = record_ends.last() else {
        return true;
    };
    MOST_RECORDS < record_ends.len() || !record_ends.is_sorted() || *last as usize != bytes
}
