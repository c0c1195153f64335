//! The test: by the definitions every suffix is compared, and every length tried; in the faster way the suffixes are
//! gone through once.
use super::order::agreeing;
use access::{entry, front, tail};

// Whether a word is inverse Lyndon: nonempty, and greater in the natural order than each proper suffix.
fn is_inverse_lyndon(word: &[u8]) -> bool {
    !word.is_empty() && (1..word.len()).all(|j| tail(word, j) < word)
}

// Whether a word is r a u r b with |r| = k and a less than b.
fn splits(word: &[u8], k: usize) -> bool {
    match word.split_last() {
        Some((b, before)) => before.ends_with(front(word, k)) && entry(word, k) < usize::from(*b),
        None => false,
    }
}

/// A shortest prefix p r that is not inverse Lyndon.
#[derive(Clone, Copy)]
pub struct Failing {
    pub length: usize,
    pub prefix: usize,
    pub border: usize,
}

// Its parts, from its length n: |r| is the least k with 2k + 2 ≤ n that splits it.
fn parts_of(word: &[u8], length: usize) -> Option<Failing> {
    let failing = front(word, length);
    let border = (0..length / 2).find(|k| splits(failing, *k))?;
    Some(Failing {
        length,
        prefix: length.saturating_sub(border.saturating_add(1)),
        border,
    })
}

/// The shortest prefix that is not inverse Lyndon, trying every length.
pub fn failing_by_trial(word: &[u8]) -> Option<Failing> {
    let length = (1..=word.len()).find(|n| !is_inverse_lyndon(front(word, *n)))?;
    parts_of(word, length)
}

// The length of the shortest prefix that its suffix from j exceeds: up to the first place where the letters differ.
fn failing_at(word: &[u8], j: usize) -> Option<usize> {
    let suffix = tail(word, j);
    let k = agreeing(word, suffix);
    let exceeds = *word.get(k)? < *suffix.get(k)?;
    exceeds.then_some(j.saturating_add(k).saturating_add(1))
}

/// The same by the suffixes: the shortest prefix that one of its suffixes exceeds. Past the end of a prefix that was found
/// no suffix exceeds a shorter one.
pub fn failing_by_suffixes(word: &[u8]) -> Option<Failing> {
    let mut shortest: Option<usize> = None;
    for j in 1..word.len() {
        if let Some(length) = shortest {
            if length <= j {
                break;
            }
        }
        shortest = match (shortest, failing_at(word, j)) {
            (Some(a), Some(b)) => Some(a.min(b)),
            (one, other) => one.or(other),
        };
    }
    parts_of(word, shortest?)
}
