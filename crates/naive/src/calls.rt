//! What those calls that are lent buffers answer on a record without marks, as lists of numbers.
ghost use Rattle.std.specs.Prelude.{◌≡◌};

use super::extension::Failing;
use super::ways::Way;
use access::{Breaks, Call, List};

/// What such a call answers: its list, of at most N entries, and the breaks beside it.
#[derive(Drop)]
pub struct Answer<const N: usize> {
    pub list: List<N>,
    pub breaks: Breaks,
}

impl<const N: usize> Answer<N> {
    /// An answer without breaks.
    pub fn unbroken(list: List<N>) -> Answer<N>
        ensures list { result.list ≡ list.entry }
        ensures breaks { result.breaks.count ≡ 0 }
    {
        Answer {
            list,
            breaks: Breaks::new(),
        }
    }
}

/// Entries of the buffers of a call, those that it needs or those that it is lent: for its work, for its list, and for
/// the breaks beside that.
#[derive(Clone, Copy)]
pub struct Room {
    pub work: usize,
    pub list: usize,
    pub breaks: usize,
}

/// What a call needs for a record of n letters, where its list has `list` entries, and its breaks `breaks`.
pub fn needed(call: Call, n: usize, list: usize, breaks: usize) -> Room {
    let work = match call {
        Call::Test => n,
        Call::Pieces | Call::Breaks => n.saturating_mul(3),
        _ => 0,
    };
    Room { work, list, breaks }
}

// The test's answer as a list: empty for an inverse Lyndon word, else L, |p| and |r|.
fn verdict<const N: usize>(failing: Option<Failing>) -> List<N> {
    let mut list = List::new();
    if let Some(found) = failing {
        list.extend(&[found.length, found.prefix, found.border]);
    }
    list
}

/// The list that a call answers on a record without marks, of the piece cut the ends alone. The breaks are no such list.
pub fn list_of<W: Way<N>, const N: usize>(call: Call, word: &[u8]) -> List<N> {
    match call {
        Call::Test => verdict(W::failing(word)),
        Call::Pieces => W::pieces(word),
        Call::Strict => W::strict(word),
        Call::Starts => W::starts(word),
        _ => List::new(),
    }
}
