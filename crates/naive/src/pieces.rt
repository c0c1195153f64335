//! The piece cut by its recursive definition, for every suffix of the word from the shortest on.
use super::cutting::cut_by;
use super::extension::failing_by_suffixes;
use access::{List, entry, tail};

// The length of the first piece of a word; `firsts` has that of each proper suffix, by its length.
fn first_piece(word: &[u8], firsts: &[u16]) -> usize {
    let Some(found) = failing_by_suffixes(word) else {
        return word.len();
    };
    let next = entry(firsts, tail(word, found.prefix).len());
    let joined = if next <= found.border { next } else { 0 };
    found.prefix.saturating_add(joined)
}

// The length of the first piece of every suffix, the empty one's first.
fn first_pieces<const N: usize>(word: &[u8]) -> List<N> {
    let mut firsts = List::new();
    firsts.push(0);
    for i in (0..word.len()).rev() {
        let first = first_piece(tail(word, i), firsts.as_slice());
        firsts.push(first);
    }
    firsts
}

/// The ends of the piece cut.
pub fn pieces_by_definition<const N: usize>(word: &[u8]) -> List<N> {
    let firsts = first_pieces::<N>(word);
    cut_by(word, |rest| entry(firsts.as_slice(), rest.len()))
}
