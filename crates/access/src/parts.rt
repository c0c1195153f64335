//! The parts that a paired list marks, an end and a count each; every number of their summary by a pass of its own.
use super::entries::entry;

/// Where part k ends.
pub fn part_end(pairs: &[u16], k: usize) -> usize {
    entry(pairs, k.saturating_mul(2))
}

/// Where part k begins.
pub fn part_start(pairs: &[u16], k: usize) -> usize {
    if k == 0 { 0 } else { part_end(pairs, k - 1) }
}

/// The length of part k, 0 where it ends before it begins.
pub fn part_length(pairs: &[u16], k: usize) -> usize {
    part_end(pairs, k).saturating_sub(part_start(pairs, k))
}

/// The count of part k.
pub fn part_count(pairs: &[u16], k: usize) -> usize {
    entry(pairs, k.saturating_mul(2).saturating_add(1))
}

/// The greatest length of a part, 0 where there is none.
pub fn longest(pairs: &[u16]) -> usize {
    (0..pairs.len() / 2)
        .map(|k| part_length(pairs, k))
        .max()
        .unwrap_or(0)
}

/// Where the latest part of that size begins: the first one that is met from the right.
pub fn latest(pairs: &[u16], size: usize) -> Option<usize> {
    (0..pairs.len() / 2)
        .rev()
        .find(|k| part_length(pairs, *k) == size)
        .map(|k| part_start(pairs, k))
}

// How many binary digits a length has, which is below 65,536: how many of its shifts are not 0. The library counts the
// zeros before them.
fn digits(length: usize) -> usize {
    (0..u16::BITS)
        .filter(|k| length.checked_shr(*k).unwrap_or(0) != 0)
        .count()
}

/// How many parts have a length of that many binary digits.
pub fn in_band(pairs: &[u16], many: usize) -> usize {
    (0..pairs.len() / 2)
        .filter(|k| digits(part_length(pairs, *k)) == many)
        .count()
}
