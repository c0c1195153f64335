//! The calls that are lent buffers, with every entry of these: the test, the piece cut alone and with its breaks, the
//! strict cut, the start table.
use super::case::Case;
use access::{BREAK_ENTRIES, Call, ENTRIES, PAIR_ENTRIES, limited};
use checks::Refusal;
use icfl_breaks::Counts;
use naive::{Defined, Room};
use samples::{about, fill, is_cleared, is_written};

// What the work buffer and the result buffers hold before a call begins above these; no answer is so great.
const WORK_SALT: usize = 20000;

const SALT: usize = 40000;

// Records up to this length go by the definitions too; longer ones by the faster second ways alone.
const SHORT: usize = 300;

// The test, its answer written as a list like that of the second implementation.
fn test(word: &[u8], work: &mut [u16], list: &mut [u16]) -> Result<usize, Refusal> {
    let Some(found) = extension::find_extension(word, work)? else {
        return Ok(0);
    };
    let numbers = [found.failing, found.prefix, found.border];
    for (entry, number) in list.iter_mut().zip(numbers) {
        *entry = limited(number);
    }
    Ok(3)
}

// The answer of a call that gives no breaks.
fn unbroken(answer: Result<usize, Refusal>) -> Result<Counts, Refusal> {
    answer.map(|factors| Counts { factors, breaks: 0 })
}

// Buffers to be lent.
#[derive(Drop)]
struct Buffers {
    work: [u16; 3 * ENTRIES],
    list: [u16; PAIR_ENTRIES],
    breaks: [u16; BREAK_ENTRIES],
}

impl Buffers {
    fn new() -> Buffers {
        let mut buffers = Buffers {
            work: [0; 3 * ENTRIES],
            list: [0; PAIR_ENTRIES],
            breaks: [0; BREAK_ENTRIES],
        };
        fill(&mut buffers.work, WORK_SALT);
        fill(&mut buffers.list, SALT);
        fill(&mut buffers.breaks, SALT);
        buffers
    }

    // The call, lent so many entries of each; nothing where there are not so many.
    fn lend(&mut self, call: Call, word: &[u8], lent: Room) -> Option<Result<Counts, Refusal>> {
        let work = self.work.get_mut(..lent.work)?;
        let list = self.list.get_mut(..lent.list)?;
        let breaks = self.breaks.get_mut(..lent.breaks)?;
        Some(match call {
            Call::Test => unbroken(test(word, work, list)),
            Call::Pieces => unbroken(icfl::icfl(word, work, list)),
            Call::Breaks => icfl_breaks::icfl_with_breaks(word, work, list, breaks),
            Call::Strict => unbroken(cfl::cfl_in(word, list)),
            _ => unbroken(table::lyndon_table(word, list)),
        })
    }
}

// What a call answers for a list of so many entries: a piece has two.
fn counted(call: Call, entries: usize) -> usize {
    match call {
        Call::Pieces | Call::Breaks => entries / 2,
        _ => entries,
    }
}

// Whether the answer is the refusal, or counts what both lists hold; a break has five entries.
fn is_answer(case: Case, answer: Result<Counts, Refusal>, refused: Option<u8>) -> bool {
    match answer {
        Err(refusal) => refused == Some(u8::from(refusal)),
        Ok(Counts { factors, breaks }) => {
            refused.is_none()
                && factors == counted(case.call, case.list.len())
                && breaks == case.breaks.len() / 5
        }
    }
}

// Whether every entry of the buffers is as the second implementation says: of the work buffer those that the call needs
// are cleared where it gets so far, and the lists are written where it answers.
fn are_left(buffers: &Buffers, case: Case, refused: Option<u8>) -> bool {
    let (cleared, list, breaks): (usize, &[u16], &[u16]) = match refused {
        None => (case.needed().work, case.list, case.breaks),
        Some(4) => (case.needed().work, &[], &[]),
        Some(_) => (0, &[], &[]),
    };
    is_cleared(&buffers.work, cleared, WORK_SALT)
        && is_written(&buffers.list, list, SALT)
        && is_written(&buffers.breaks, breaks, SALT)
}

// Whether the call, lent so many entries, does as the second implementation says: its answer, and every entry of the
// buffers.
fn lent_is(case: Case, lent: Room) -> bool {
    let mut buffers = Buffers::new();
    let refused = naive::lent_refusal(case.call, case.word, case.needed(), lent);
    match buffers.lend(case.call, case.word, lent) {
        Some(answer) => is_answer(case, answer, refused) && are_left(&buffers, case, refused),
        None => false,
    }
}

// Whether the definitions give the same lists, for a short record.
fn is_defined(case: Case) -> bool {
    if SHORT < case.word.len() {
        return true;
    }
    let found = naive::small_answer::<Defined>(case.call, case.word);
    found.list.as_slice() == case.list && found.breaks.as_slice() == case.breaks
}

/// With a few entries to spare, and by the definitions.
pub fn agrees(case: Case) -> bool {
    let n = case.word.len();
    let needed = case.needed();
    let lent = Room {
        work: needed.work.saturating_add(n % 7),
        list: needed.list.saturating_add(n % 5),
        breaks: needed.breaks.saturating_add(n % 3),
    };
    lent_is(case, lent) && is_defined(case)
}

// No entry, one too few, as many as needed, one more.
fn limit(needed: usize, code: usize) -> usize {
    about(0, needed)[code % 4 + 1]
}

/// Case `code` at the boundaries of the buffers' lengths: 4 where one buffer is lent, 16 for the piece cut, 64 with its
/// breaks.
pub fn agrees_at_limits(case: Case, code: usize) -> bool {
    let needed = case.needed();
    let lent = match case.call {
        Call::Test => Room {
            work: limit(needed.work, code),
            ..needed
        },
        _ => Room {
            work: limit(needed.work, code / 4),
            list: limit(needed.list, code),
            breaks: limit(needed.breaks, code / 16),
        },
    };
    lent_is(case, lent)
}
