//! Numbers at boundaries, and the paired lists made of them.
ghost use Rattle.std.specs.Prelude.{◌≡◌, ◌*◌, ◌%◌, ◌<◌, ◌≤◌};

use super::shapes::spell;
use access::{
    BREAK_ENTRIES, Breaks, ENTRIES, List, PAIR_ENTRIES, Pairs, pair_with_ones, part_length,
};

/// Eight numbers about a and b: one above a, then 0, one below b, b, one above it, the largest number, a, and one below
/// it. Each use takes neighbours of this order.
pub fn about(a: usize, b: usize) -> [usize; 8] {
    let below_b = b.saturating_sub(1);
    let above_b = b.wrapping_add(1);
    [
        a.wrapping_add(1),
        0,
        below_b,
        b,
        above_b,
        usize::MAX,
        a,
        a.saturating_sub(1),
    ]
}

// One of the 585 lists of at most three ends, each of them 0, 1, 2, 3, n − 1, n, n + 1 or the largest number: that of a
// spelled word, a letter for each.
fn short_list<const N: usize>(n: usize, number: usize) -> List<N> {
    let mut word = [0u8; 3];
    let count = spell(&mut word, 8, number);
    let ends = about(2, n);
    let mut list = List::new();
    for letter in word.iter().take(count) {
        list.push(ends[usize::from(letter.saturating_sub(97)) % 8]);
    }
    list
}

// A list of ends, with or without faults: first the short ones, then all places, and these with the last end or one in
// the middle raised to the next.
fn list_of_ends<const N: usize>(n: usize, number: usize) -> List<N>
    ensures { 585 ≤ number → number < 588 → n ≤ N → result.count ≡ n }
{
    let raised = match number {
        585 => n,
        586 => n.saturating_sub(1),
        587 => n / 2,
        _ => return short_list(n, number),
    };
    let mut list = List::new();
    for place in 0..n {
        let step = if place == raised { 2 } else { 1 };
        list.push(place.saturating_add(step));
    }
    list
}

/// How many paired lists there are for a record: 588 lists of ends, five times.
pub const LISTS: usize = 2940;

// A list of at most E ends, paired in room for N entries, with or without faults. E is bounded, for the list of ends to
// fit in memory. Its two names are inlined, so that a list is not copied once more.
fn list_within<const E: usize, const N: usize>(n: usize, number: usize) -> List<N>
    requires { E < 65536 }
    ensures { n ≤ E → 2 * n ≤ N → 2925 ≤ number → number < 2940 → number % 5 < 4 → result.count ≡ 2 * n }
{
    let ends = list_of_ends::<E>(n, number / 5);
    let mut pairs = pair_with_ones::<N>(ends.as_slice());
    let middle = ends.as_slice().len() / 2;
    let length = part_length(pairs.as_slice(), middle);
    match number % 5 {
        0 => {}
        1 => pairs.set(2 * middle + 1, 0),
        2 => pairs.set(2 * middle + 1, length),
        3 => pairs.set(2 * middle + 1, length.saturating_add(1)),
        _ => pairs.pop(),
    }
    pairs
}

/// A paired list for a record of n letters, with or without faults. The counts are 1, but the one in the middle may be
/// 0, its part's length or one above it, or the last may be left out. From list 2,925 on it has an end for each place.
/// There is as much room as for the breaks.
#[inline(always)]
pub fn paired_list(n: usize, number: usize) -> Breaks
    ensures { 2 * n ≤ 20550 → 2925 ≤ number → number < 2940 → number % 5 < 4 → result.count ≡ 2 * n }
{
    list_within::<BREAK_ENTRIES, BREAK_ENTRIES>(n, number)
}

/// The same, with no more room than the records that are tried need.
#[inline(always)]
pub fn small_paired_list(n: usize, number: usize) -> Pairs
    ensures { n ≤ 4110 → 2925 ≤ number → number < 2940 → number % 5 < 4 → result.count ≡ 2 * n }
{
    list_within::<ENTRIES, PAIR_ENTRIES>(n, number)
}
