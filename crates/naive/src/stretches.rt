//! Records with marks. A byte 255 is no level but a mark: a piece and a strict piece of its own, with 1 in the start
//! table. A stretch is what stands between two neighbouring marks, or between a mark and an edge of the record. Each
//! one that is not empty is cut as a record by itself, and what is found is then put in the record's places. Until the
//! pieces are paired, the list of the piece cut has its ends alone, and that of the cut with breaks these.
ghost use Rattle.std.specs.Prelude.{◌≡◌, ◌<◌};
ghost use Rattle.access.specs.declared.calls.Call.TheVariants.{Breaks};

use super::breaks::breaks;
use super::calls::{Answer, list_of};
use super::ways::Way;
use access::{BREAK_ENTRIES, Call, ENTRIES, List, PAIR_ENTRIES, SEPARATOR, pair_with_strict};

/// Whether a call refuses the record for a mark: the test alone does.
pub fn refuses_separator(call: Call, word: &[u8]) -> bool {
    call == Call::Test && word.contains(&SEPARATOR)
}

// How much entry k of a stretch's list grows in the record, where the stretch begins at `from`: an end is a place, and
// so are the first two of a break's five entries.
fn growth(call: Call, k: usize, from: usize) -> usize {
    match call {
        Call::Pieces | Call::Strict => from,
        Call::Breaks if k % 5 < 2 => from,
        _ => 0,
    }
}

// Writes the entries that were found in the stretch that begins at `from`, in the record's places.
fn write_found<const N: usize>(call: Call, found: &[u16], from: usize, list: &mut List<N>) {
    for (k, entry) in found.iter().enumerate() {
        list.push(usize::from(*entry).saturating_add(growth(call, k, from)));
    }
}

// Writes the entries of the stretch that begins at `from`; an empty one has none.
fn write_stretch<W: Way<E>, const E: usize, const N: usize>(
    call: Call,
    stretch: &[u8],
    from: usize,
    list: &mut List<N>,
)
    requires { E < 65536 }
{
    if stretch.is_empty() {
        return;
    }
    if call == Call::Breaks {
        write_found(call, breaks::<W, E>(stretch).as_slice(), from, list);
    } else {
        write_found(call, list_of::<W, E>(call, stretch).as_slice(), from, list);
    }
}

// Writes the entry of the mark at a place: its end, or its length; it has no break.
fn write_mark<const N: usize>(call: Call, at: usize, list: &mut List<N>) {
    match call {
        Call::Pieces | Call::Strict => list.push(at.saturating_add(1)),
        Call::Starts => list.push(1),
        _ => {}
    }
}

// The list of a record, stretch by stretch.
fn list_with_marks<W: Way<E>, const E: usize, const N: usize>(call: Call, word: &[u8]) -> List<N>
    requires { E < 65536 }
{
    let mut list = List::new();
    let mut from: usize = 0;
    for stretch in word.split(|letter| *letter == SEPARATOR) {
        write_stretch::<W, E, N>(call, stretch, from, &mut list);
        let to = from.saturating_add(stretch.len());
        if to < word.len() {
            write_mark(call, to, &mut list);
        }
        from = to.saturating_add(1);
    }
    list
}

// The pieces, beside each end the number of strict pieces inside.
fn pairs<W: Way<E>, const E: usize, const N: usize>(word: &[u8]) -> List<N>
    requires { E < 65536 }
{
    let pieces = list_with_marks::<W, E, E>(Call::Pieces, word);
    let strict = list_with_marks::<W, E, E>(Call::Strict, word);
    pair_with_strict(pieces.as_slice(), strict.as_slice())
}

// What a call answers: its list has room for N entries, each list of ends or starts on the way for E. These
// lists stand in no argument and no answer, so E is bounded, for them to fit in memory.
// Its two names are inlined and it is not: otherwise an answer is copied once more.
#[inline(never)]
fn answer_within<W: Way<E>, const E: usize, const N: usize>(call: Call, word: &[u8]) -> Answer<N>
    requires { E < 65536 }
    ensures { (call ≡ Breaks → ⊥) → result.breaks.count ≡ 0 }
{
    match call {
        _ if refuses_separator(call, word) => Answer::unbroken(List::new()),
        Call::Pieces => Answer::unbroken(pairs::<W, E, N>(word)),
        Call::Breaks => Answer {
            list: pairs::<W, E, N>(word),
            breaks: list_with_marks::<W, E, BREAK_ENTRIES>(call, word),
        },
        _ => Answer::unbroken(list_with_marks::<W, E, N>(call, word)),
    }
}

/// What a call that is lent buffers answers, nothing for the others, nor for a record that the call refuses for a mark.
/// Each list has as much room as the breaks.
#[inline(always)]
pub fn answer<W: Way<BREAK_ENTRIES>>(call: Call, word: &[u8]) -> Answer<BREAK_ENTRIES>
    ensures { (call ≡ Breaks → ⊥) → result.breaks.count ≡ 0 }
{
    answer_within::<W, BREAK_ENTRIES, BREAK_ENTRIES>(call, word)
}

/// The same, with no more room than the records that are tried need.
#[inline(always)]
pub fn small_answer<W: Way<ENTRIES>>(call: Call, word: &[u8]) -> Answer<PAIR_ENTRIES>
    ensures { (call ≡ Breaks → ⊥) → result.breaks.count ≡ 0 }
{
    answer_within::<W, ENTRIES, PAIR_ENTRIES>(call, word)
}
