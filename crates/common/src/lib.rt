//! Two words compared: which comes first in the inverse order, and how far they agree. And letters and words in either
//! order of the letters.
#![tactic(auto)]

mod orders; // LetterOrder, comes_before: letters and words in either order of the letters

ghost use Rattle.std.specs.Prelude.{◌≡◌};
ghost use Rattle.words.specs.Words.{common_length_of};
ghost use Rattle.letters.specs.Steps.{Parting, Ordered};

use eights::{eight_at, equal_bytes};
use letters::Order;
pub use orders::{Inverse, LetterOrder, Natural, comes_before};

// Where two words part: eight letters in a step where both have eight more, then one by one. None if one is a prefix of
// the other.
fn parting(x: &[u8], y: &[u8]) -> Option<usize>
    ensures { Parting x.now y.now result }
{
    let most = x.len().min(y.len());
    let whole = most - most % 8;
    let mut l: usize = 0;
    // A for over the number of eights keeps a second count in its step: on 4,096 equal letters it took a fifth longer.
    while l < whole {
        let v = eight_at(x, l);
        let w = eight_at(y, l);
        if v != w {
            return Some(l + equal_bytes(v, w) as usize);
        }
        l += 8;
    }
    letters::parting_from(x, y, l)
}

/// Compares two words. The sign is read off at the first difference.
pub fn compare_words(x: &[u8], y: &[u8]) -> Order
    ensures { Ordered x.now y.now result }
{
    match parting(x, y) {
        Some(l) => letters::parted_at(x, y, l),
        None => letters::prefix_order(x.len(), y.len()),
    }
}

/// The number of equal leading letters of x and y.
pub fn common_length(x: &[u8], y: &[u8]) -> usize
    ensures { result ≡ common_length_of x.now y.now }
{
    compare_words(x, y).common
}
