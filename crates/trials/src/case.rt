//! What a case is made on.
ghost use Rattle.std.specs.Prelude.{◌≡◌, ◌≤◌, length};

use access::Call;
use naive::{Answer, Room, needed};

/// A call on a record. The list is what a call that is lent buffers should answer, beside it the breaks, where it gives
/// them; or the pairs that comparison, reader and summary go by.
#[derive(Clone, Copy)]
pub struct Case<'a> {
    pub call: Call,
    pub word: &'a [u8],
    pub list: &'a [u16],
    pub breaks: &'a [u16],
}

impl<'a> Case<'a> {
    /// A call that is lent buffers, with what it should answer.
    pub fn lent<const N: usize>(call: Call, word: &'a [u8], answer: &'a Answer<N>) -> Case<'a>
        ensures call { result.call ≡ call }
        ensures word { result.word.now ≡ word.now }
        ensures list { answer.now.list.count ≤ N → length result.list.now ≡ answer.now.list.count }
    {
        Case {
            call,
            word,
            list: answer.list.as_slice(),
            breaks: answer.breaks.as_slice(),
        }
    }

    /// A call that goes by pairs.
    pub fn by_pairs(call: Call, word: &'a [u8], pairs: &'a [u16]) -> Case<'a> {
        Case {
            call,
            word,
            list: pairs,
            breaks: &[],
        }
    }

    /// The entries that the call needs.
    pub fn needed(self) -> Room {
        needed(
            self.call,
            self.word.len(),
            self.list.len(),
            self.breaks.len(),
        )
    }
}
