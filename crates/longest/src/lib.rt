//! The longest Lyndon word at each place, in either order of the letters: from right to left, the word at a place is
//! made of the letter there and the longest words that follow, as long as each comes after what stands before it. At
//! each place one of the two lengths is 1, so the longer one is kept; the letters of its word tell its order.
//! The word and the table stay two arguments: the table is written between the calls that read it.
#![tactic(auto)]

ghost use Rattle.std.specs.Prelude.{◌≡◌, not};
ghost use Rattle.theory.specs.Repetitions.RunSuffixes.{entry_at};
ghost use Rattle.theory.specs.Repetitions.TwoOrders.{longer_entry};
ghost use Rattle.common.specs.Orders.{most_byte, in_order};
ghost use Rattle.longest.specs.Longest.{LongestKnown, LongestAfter, NextAfter, LongestRoom, LongestFilled};

use common::{Inverse, LetterOrder, Natural, comes_before};

// The length of the longest Lyndon word at j in an order: a word of more than one letter begins with a letter that
// comes before its last one.
fn length_in<O: LetterOrder>(word: &[u8], longest: &[u16], j: usize) -> usize
    requires { LongestKnown word.now longest.now j }
    ensures { result ≡ entry_at (in_order O.natural word.now) j }
{
    let n = longest[j] as usize;
    if O::precedes(word[j], word[j + n - 1]) {
        return n;
    }
    1
}

// The length of the longest Lyndon word at i in an order.
fn merged_length<O: LetterOrder>(word: &[u8], longest: &[u16], i: usize) -> usize
    requires { LongestAfter word.now longest.now i }
    ensures { result ≡ entry_at (in_order O.natural word.now) i }
{
    let mut j = i + 1;
    while j < word.len() {
        let n = length_in::<O>(word, longest, j);
        if !comes_before::<O>(&word[i..j], &word[j..j + n]) {
            return j - i;
        }
        j += n;
    }
    j - i
}

// The order in which a word of more than one letter may begin at i: in the other one the letter is alone. The next
// letter decides, or the word there if it is the same.
fn natural_at(word: &[u8], longest: &[u16], i: usize) -> bool
    requires { NextAfter word.now longest.now i }
    ensures { entry_at (in_order (not result) word.now) i ≡ 1 }
{
    let a = word[i];
    let b = word[i + 1];
    if b != a {
        return a < b;
    }
    let n = longest[i + 1] as usize;
    a < word[i + n]
}

// The entry at i, from the entries after it.
fn longest_at(word: &[u8], longest: &[u16], i: usize) -> usize
    requires { LongestAfter word.now longest.now i }
    ensures { result ≡ longer_entry most_byte word.now i }
{
    if i + 1 == word.len() {
        return 1;
    }
    if natural_at(word, longest, i) {
        merged_length::<Natural>(word, longest, i)
    } else {
        merged_length::<Inverse>(word, longest, i)
    }
}

/// Writes the length of the longest Lyndon word at each place into the first entries of `longest`. A record of many marks
/// has as many stretches: a call for each of them takes a third of the time that the repetitions take there.
#[inline(always)]
pub fn fill_longest(word: &[u8], longest: &mut [u16])
    requires { LongestRoom word.now longest.old }
    ensures { LongestFilled word.now longest.new }
{
    for i in (0..word.len()).rev() {
        let n = longest_at(word, longest, i);
        longest[i] = n as u16;
    }
}
