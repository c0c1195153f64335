//! The strict cut and the start table by suffixes of the whole word: a longest anti-Lyndon word ends where the next
//! suffix begins that comes before the suffix at its start.
use super::order::inverse_before;
use access::{List, entry, tail};

/// The ends of the strict cut: the starts of the suffixes that come before all longer ones, and the length.
pub fn strict_by_suffixes<const N: usize>(word: &[u8]) -> List<N> {
    let mut ends = List::new();
    let mut last = 0;
    for j in 1..word.len() {
        if inverse_before(tail(word, j), tail(word, last)) {
            ends.push(j);
            last = j;
        }
    }
    ends.push(word.len());
    ends
}

// Every entry is the rest of the word, the answer for a place that no suffix after it comes before.
fn rests<const N: usize>(word: &[u8]) -> List<N> {
    let mut lengths = List::new();
    for i in 0..word.len() {
        lengths.push(word.len().saturating_sub(i));
    }
    lengths
}

// Takes from the stack of open places those that the suffix at i comes before, and sets their lengths.
fn settle<const N: usize>(word: &[u8], lengths: &mut List<N>, open: &mut List<N>, i: usize) {
    for k in (0..open.as_slice().len()).rev() {
        let place = entry(open.as_slice(), k);
        if !inverse_before(tail(word, i), tail(word, place)) {
            return;
        }
        lengths.set(place, i.saturating_sub(place));
        open.pop();
    }
}

/// The start table.
pub fn starts_by_suffixes<const N: usize>(word: &[u8]) -> List<N> {
    let mut lengths = rests(word);
    let mut open = List::new();
    for i in 0..word.len() {
        settle(word, &mut lengths, &mut open, i);
        open.push(i);
    }
    lengths
}
