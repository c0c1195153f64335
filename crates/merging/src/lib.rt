//! The Lyndon table by merging: from right to left, the longest anti-Lyndon word at a place is made of the letter there
//! and the longest words that follow, as long as each comes after what stands before it. A separator is a word alone;
//! it comes before every word that begins below it, so it joins none.
#![tactic(auto)]

ghost use Rattle.std.specs.Prelude.{◌≡◌, get_or};
ghost use Rattle.words.specs.Separated.{separated_table};
ghost use Rattle.theory.specs.Orders.Decisions.{Decides};
ghost use Rattle.buffers.specs.Buffers.{written};
ghost use Rattle.merging.specs.Steps.{TableRoom, NextKnown, MergedTo, SeparatorAlone, LetterJoins};

use common::{Inverse, comes_before};

// Whether a letter joins the word v after it, which is a single letter if it begins with a separator. A separator joins
// none; it is looked for only where the first letters differ, since two of them do not join anyhow.
fn letter_joins(a: u8, v: &[u8]) -> bool
    requires { SeparatorAlone v.now }
    ensures { Decides (LetterJoins a v.now) result }
{
    if v.is_empty() {
        return false;
    }
    let b = v[0];
    if b == a {
        return 1 < v.len();
    }
    (b < a) & (a != words::SEPARATOR)
}

// Entry i of the table: the word from i to `from` is anti-Lyndon and begins with no separator, and the words that
// follow join it as long as they come after it. longest::merged_length joins alike: one function of both would take the
// lengths by a closure, with a promise about separators that the runs have no need of.
fn longest_from(word: &[u8], lengths: &[u16], i: usize, from: usize) -> usize
    requires { MergedTo word.now lengths.now i from }
    ensures { result ≡ get_or (separated_table word.now) i 0 }
{
    let mut j = from;
    while j < word.len() {
        let n = lengths[j] as usize;
        if !comes_before::<Inverse>(&word[i..j], &word[j..j + n]) {
            return j - i;
        }
        j += n;
    }
    j - i
}

// Entry i of the table, from the entries after it; `next` is the first of them, 0 past the last letter, where the word is
// empty. That the first word reaches to the end is asked before the loop, which a falling record then never enters.
fn longest_at(word: &[u8], lengths: &[u16], i: usize, next: usize) -> usize
    requires { NextKnown word.now lengths.now i next }
    ensures { result ≡ get_or (separated_table word.now) i 0 }
{
    let j = i + 1;
    if !letter_joins(word[i], &word[j..j + next]) {
        return 1;
    }
    let from = j + next;
    if from == word.len() {
        return from - i;
    }
    longest_from(word, lengths, i, from)
}

/// Writes the table from its last entry on. The entry just written is handed on, the others are read again.
pub fn fill_table(word: &[u8], lengths: &mut [u16])
    requires { TableRoom word.now lengths.old }
    ensures { lengths.new ≡ written (separated_table word.now) lengths.old }
{
    let mut n: usize = 0;
    for i in (0..word.len()).rev() {
        n = longest_at(word, lengths, i, n);
        lengths[i] = n as u16;
    }
}
