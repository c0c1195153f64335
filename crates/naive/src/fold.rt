//! The piece cut as a fold over the strict cut, from the last factor to the first: a factor is a piece of its own where
//! it is less than the first piece of what follows at a letter that both have; otherwise it is joined to that piece.
use super::suffixes::strict_by_suffixes;
use access::{List, entry, part};

// Whether x is less than y at a letter that both have.
fn loses(x: &[u8], y: &[u8]) -> bool {
    x.iter()
        .zip(y)
        .find(|(a, b)| **a != **b)
        .is_some_and(|(a, b)| *a < *b)
}

// Where factor k of a list of ends begins.
fn factor_start(ends: &[u16], k: usize) -> usize {
    if k == 0 { 0 } else { entry(ends, k - 1) }
}

/// The ends of the piece cut.
pub fn pieces_by_fold<const N: usize>(word: &[u8]) -> List<N> {
    let strict = strict_by_suffixes::<N>(word);
    let ends = strict.as_slice();
    let mut pieces = List::new();
    let mut end = word.len();
    pieces.push(end);
    for k in (1..ends.len()).rev() {
        let factor = part(word, factor_start(ends, k - 1), factor_start(ends, k));
        let piece = part(word, factor_start(ends, k), end);
        if loses(factor, piece) {
            end = factor_start(ends, k);
            pieces.push(end);
        }
    }
    pieces.reverse();
    pieces
}
