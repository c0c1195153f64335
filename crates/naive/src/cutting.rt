//! A word cut part by part.
use access::{List, tail};

/// The ends of the parts of a word, where `first` gives the length of the first part of what is left.
pub fn cut_by<F: Fn(&[u8]) -> usize, const N: usize>(word: &[u8], first: F) -> List<N>
    requires { F.IsAlwaysCallable first }
{
    let mut ends = List::new();
    let mut from: usize = 0;
    while from < word.len() {
        let length = first(tail(word, from));
        from = from.saturating_add(length.max(1));
        ends.push(from);
    }
    ends
}
