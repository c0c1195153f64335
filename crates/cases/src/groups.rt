//! The groups of records, and the calls that are made on each.
use access::{Call, PAIR_ENTRIES, front, pair_with_ones};
use naive::Faster;
use samples::{LENGTHS, LISTS, Run, random_record, shaped_record, spell, spell_with_marks};
use trials::{Case, RANGES, WORDS, try_cases, try_limits};

/// Records of a kind, with the calls that are made on them.
#[derive(Clone, Copy)]
pub enum Group {
    /// The words over so many letters, the shorter ones first; all calls.
    Words { letters: usize },
    /// The same, with a mark as the last of the letters.
    MarkedWords { letters: usize },
    /// Pseudo-random records of up to so many letters; all calls.
    Random { most: usize },
    /// Sixteen shapes, half of them with marks, of 4,095, 4,096 and 4,097 letters; all calls.
    Long,
    /// The same shapes of each length at the boundaries; the calls that are lent buffers, at the boundaries of the
    /// refusals 1 to 4, and of 9 after 3.
    Lent,
    /// Two records of each length at the boundaries, one with marks; the comparison, at the boundaries of range and
    /// starts.
    Ranges,
    /// Fifty equal letters but one, at each place, and one that is larger still 26 places on; two short words in them,
    /// alone.
    Differences,
    /// A record of each length at the boundaries; the reader and the summary, on lists with faults.
    Lists,
}

// Writes fifty equal letters but one at a place, and one that is larger still 26 places on.
fn write_difference(room: &mut [u8], at: usize) -> usize {
    for (i, letter) in room.iter_mut().enumerate().take(50) {
        *letter = match i.checked_sub(at) {
            Some(0) => 1,
            Some(26) => 2,
            _ => 0,
        };
    }
    50
}

// Writes record i of a group to the front of a room. Answers its length.
fn write_record(group: Group, i: usize, room: &mut [u8], run: &mut Run) -> usize {
    match group {
        Group::Words { letters } => spell(room, letters, i.saturating_add(1)),
        Group::MarkedWords { letters } => spell_with_marks(room, letters, i.saturating_add(1), run),
        Group::Random { most } => random_record(room, most, run),
        Group::Long => shaped_record(room, LENGTHS[4 + i % 3], i / 3, run),
        Group::Lent => shaped_record(room, LENGTHS[i % 7], i / 7, run),
        Group::Ranges => shaped_record(room, LENGTHS[i % 7], if i < 7 { 1 } else { 14 }, run),
        Group::Differences => write_difference(room, i),
        Group::Lists => shaped_record(room, LENGTHS[i % 7], 1, run),
    }
}

// What goes by the pieces or by the strict pieces: the reader and the summary.
fn on_parts(word: &[u8], pairs: &[u16], run: &mut Run) {
    try_cases(
        Case::by_pairs(Call::Part, word, pairs),
        pairs.len() / 2,
        run,
    );
    try_cases(Case::by_pairs(Call::Summary, word, pairs), 1, run);
}

// What goes by the pieces: the comparison too, which has 8 ranges of its own and 4 of whole pieces.
fn on_pieces(word: &[u8], pairs: &[u16], run: &mut Run) {
    on_parts(word, pairs, run);
    try_cases(Case::by_pairs(Call::Compare, word, pairs), 12, run);
    try_cases(Case::by_pairs(Call::Common, word, pairs), 4, run);
}

// A call that is lent buffers, and what goes by the parts that it gives: of the strict pieces the list of their ends is
// paired first.
fn on_call(call: Call, word: &[u8], run: &mut Run) {
    let found = naive::small_answer::<Faster>(call, word);
    let case = Case::lent(call, word, &found);
    try_cases(case, 1, run);
    match call {
        Call::Strict => {
            let pairs = pair_with_ones::<PAIR_ENTRIES>(case.list);
            on_parts(word, pairs.as_slice(), run);
        }
        Call::Pieces => on_pieces(word, case.list, run),
        _ => {}
    }
}

// All calls.
fn on_record(word: &[u8], run: &mut Run) {
    for call in [
        Call::Test,
        Call::Starts,
        Call::Strict,
        Call::Pieces,
        Call::Breaks,
    ] {
        on_call(call, word, run);
    }
}

// The first cases of a call at the boundaries of its refusals.
fn at_limits(call: Call, many: usize, word: &[u8], run: &mut Run) {
    let found = naive::small_answer::<Faster>(call, word);
    try_limits(Case::lent(call, word, &found), many, run);
}

// The calls that are lent buffers, at the boundaries of their refusals.
fn on_lent(word: &[u8], run: &mut Run) {
    at_limits(Call::Test, 4, word, run);
    at_limits(Call::Pieces, 16, word, run);
    at_limits(Call::Breaks, 64, word, run);
    at_limits(Call::Strict, 4, word, run);
    at_limits(Call::Starts, 4, word, run);
}

// The calls of a group.
fn on_word(group: Group, word: &[u8], run: &mut Run) {
    match group {
        Group::Lent => on_lent(word, run),
        Group::Ranges => at_limits(Call::Compare, RANGES, word, run),
        Group::Differences => try_cases(Case::by_pairs(Call::Common, word, &[]), WORDS, run),
        Group::Lists => {
            at_limits(Call::Part, 5 * LISTS, word, run);
            at_limits(Call::Summary, LISTS, word, run);
        }
        _ => on_record(word, run),
    }
}

/// The first `many` records of a group.
pub fn try_group(group: Group, many: usize, run: &mut Run) {
    for i in 0..many {
        let mut room = [0u8; 4100];
        let n = write_record(group, i, &mut room, run);
        on_word(group, front(&room, n), run);
    }
}
