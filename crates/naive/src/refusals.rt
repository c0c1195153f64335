//! Paper 01's table of refusals, with the lines that requests add. Each function gives the number of the first line
//! that is met.
use super::calls::Room;
use super::stretches::refuses_separator;
use access::{Call, TwoStarts, part_count, part_end, part_length, part_start};

// Lines 1 and 2, for a record of n letters.
fn record_lines(n: usize) -> Option<u8> {
    (n == 0).then_some(1).or((4096 < n).then_some(2))
}

/// A call that is lent buffers: the entries that it needs, and those that it is lent.
pub fn lent_refusal(call: Call, word: &[u8], needed: Room, lent: Room) -> Option<u8> {
    let results = lent.list < needed.list || lent.breaks < needed.breaks;
    record_lines(word.len())
        .or((lent.work < needed.work).then_some(3))
        .or(refuses_separator(call, word).then_some(9))
        .or(results.then_some(4))
}

/// The comparison.
pub fn range_refusal(n: usize, asked: TwoStarts) -> Option<u8> {
    let range = asked.first..asked.end;
    let inside = range.contains(&asked.start) && range.contains(&asked.other);
    record_lines(n)
        .or((range.is_empty() || n < asked.end).then_some(5))
        .or((!inside).then_some(6))
}

// Whether part k is at fault: its end is not above the one before, or for the first part not above 0; or its count is 0
// or above its length.
fn is_no_part(pairs: &[u16], k: usize) -> bool {
    let count = part_count(pairs, k);
    part_end(pairs, k) <= part_start(pairs, k) || count == 0 || part_length(pairs, k) < count
}

// Whether line 7 is met: the list is empty or has an odd number of entries, a part is at fault, or the last end is not
// n.
fn is_no_list(pairs: &[u16], n: usize) -> bool {
    let parts = pairs.len() / 2;
    let at_fault = (0..parts).any(|k| is_no_part(pairs, k));
    pairs.is_empty() || pairs.len() % 2 == 1 || at_fault || part_start(pairs, parts) != n
}

/// The summary.
pub fn summary_refusal(n: usize, pairs: &[u16]) -> Option<u8> {
    record_lines(n).or(is_no_list(pairs, n).then_some(7))
}

/// The reader.
pub fn part_refusal(n: usize, pairs: &[u16], number: usize) -> Option<u8> {
    summary_refusal(n, pairs).or((pairs.len() / 2 <= number).then_some(8))
}
