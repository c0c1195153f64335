//! The inverse order, letter by letter, and the comparison of two words in two ways; the natural order is that of the
//! library.
use access::front;
use std::cmp::Ordering;

/// How many leading letters agree.
pub fn agreeing(x: &[u8], y: &[u8]) -> usize {
    x.iter().zip(y).take_while(|(a, b)| **a == **b).count()
}

// Whether x comes before y in the inverse order, where the first n letters agree and no more: as a proper prefix, or
// by the larger letter.
fn is_before(x: &[u8], y: &[u8], n: usize) -> bool {
    match (x.get(n), y.get(n)) {
        (Some(a), Some(b)) => *b < *a,
        (None, Some(_)) => true,
        (_, None) => false,
    }
}

/// Whether x comes before y in the inverse order.
pub fn inverse_before(x: &[u8], y: &[u8]) -> bool {
    is_before(x, y, agreeing(x, y))
}

/// What the comparison answers: the order, and how many leading letters are equal.
#[derive(Clone, Copy, PartialEq, Eq)]
pub struct Compared {
    pub order: Ordering,
    pub common: usize,
}

/// The comparison of two words, letter by letter: by the first letters that differ, or by length.
pub fn compare_letters(x: &[u8], y: &[u8]) -> Compared {
    let parted = x.iter().zip(y).find(|(a, b)| **a != **b);
    let order = match parted {
        Some((a, b)) => b.cmp(a),
        None => x.len().cmp(&y.len()),
    };
    Compared {
        order,
        common: agreeing(x, y),
    }
}

/// The longest common prefix of two words, tried from the longest down.
pub fn common(x: &[u8], y: &[u8]) -> usize {
    (1..=y.len())
        .rev()
        .find(|n| x.starts_with(front(y, *n)))
        .unwrap_or(0)
}

/// The comparison of two words by their longest common prefix.
pub fn compare_words(x: &[u8], y: &[u8]) -> Compared {
    let n = common(x, y);
    let order = if is_before(x, y, n) {
        Ordering::Less
    } else if is_before(y, x, n) {
        Ordering::Greater
    } else {
        Ordering::Equal
    };
    Compared { order, common: n }
}
