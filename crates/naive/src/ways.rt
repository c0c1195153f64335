//! The two ways to answer the calls on a word without marks: by the definitions, which take cubic time, and faster.
use super::extension::{Failing, failing_by_suffixes, failing_by_trial};
use super::fold::pieces_by_fold;
use super::pieces::pieces_by_definition;
use super::strict::{starts_by_longest, strict_by_longest};
use super::suffixes::{starts_by_suffixes, strict_by_suffixes};
use access::List;

/// A way to answer them, with lists of at most N entries.
pub trait Way<const N: usize> {
    /// The shortest prefix that is not inverse Lyndon.
    fn failing(word: &[u8]) -> Option<Failing>;

    /// The ends of the piece cut.
    fn pieces(word: &[u8]) -> List<N>;

    /// The ends of the strict cut.
    fn strict(word: &[u8]) -> List<N>;

    /// The start table.
    fn starts(word: &[u8]) -> List<N>;
}

/// By the definitions.
pub struct Defined;

impl<const N: usize> Way<N> for Defined {
    fn failing(word: &[u8]) -> Option<Failing> {
        failing_by_trial(word)
    }

    fn pieces(word: &[u8]) -> List<N> {
        pieces_by_definition(word)
    }

    fn strict(word: &[u8]) -> List<N> {
        strict_by_longest(word)
    }

    fn starts(word: &[u8]) -> List<N> {
        starts_by_longest(word)
    }
}

/// In the faster second ways.
pub struct Faster;

impl<const N: usize> Way<N> for Faster {
    fn failing(word: &[u8]) -> Option<Failing> {
        failing_by_suffixes(word)
    }

    fn pieces(word: &[u8]) -> List<N> {
        pieces_by_fold(word)
    }

    fn strict(word: &[u8]) -> List<N> {
        strict_by_suffixes(word)
    }

    fn starts(word: &[u8]) -> List<N> {
        starts_by_suffixes(word)
    }
}
