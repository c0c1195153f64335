//! The strict cut and the start table by the longest anti-Lyndon prefix, tried from the longest down.
ghost use Rattle.std.specs.Prelude.{◌≡◌, ◌≤◌, length};

use super::cutting::cut_by;
use super::order::inverse_before;
use access::{List, front, tail};

// Whether a word is anti-Lyndon: nonempty, and before each proper suffix in the inverse order.
fn is_anti_lyndon(word: &[u8]) -> bool {
    !word.is_empty() && (1..word.len()).all(|j| inverse_before(word, tail(word, j)))
}

// The length of the longest anti-Lyndon prefix.
fn longest_anti_lyndon(word: &[u8]) -> usize {
    (1..=word.len())
        .rev()
        .find(|n| is_anti_lyndon(front(word, *n)))
        .unwrap_or(0)
}

/// The ends of the strict cut: the longest anti-Lyndon prefix, then that of what follows.
pub fn strict_by_longest<const N: usize>(word: &[u8]) -> List<N> {
    cut_by(word, longest_anti_lyndon)
}

/// The start table: the longest anti-Lyndon prefix at each place.
pub fn starts_by_longest<const N: usize>(word: &[u8]) -> List<N>
    ensures { length word.now ≤ N → result.count ≡ length word.now }
{
    let mut lengths = List::new();
    for i in 0..word.len() {
        lengths.push(longest_anti_lyndon(tail(word, i)));
    }
    lengths
}
