//! All places of all stretches: the runs are counted, or put into the list in the result buffer too.
#![tactic(auto)]

mod sink; // Sink, Count, List: whether the runs are counted or listed

ghost use Rattle.std.specs.Prelude.{◌≡◌, ◌<◌, length};
ghost use Rattle.words.specs.Runs.{separated_runs};
ghost use Rattle.theory.specs.Repetitions.Found.{found_at};
ghost use Rattle.common.specs.Orders.{most_byte};
ghost use Rattle.walking.specs.Walking.{all_found, VisitRoom, PlaceRoom, Visited, StretchEnds, WalkRoom, Walked, CountRoom, ListRoom, RunsListed};

use found::run_at;
use inserting::Run;
use longest::fill_longest;
use sink::{Count, List, Sink};

// A stretch of the record, the longest Lyndon words at its places, and where it begins.
#[derive(Clone, Copy)]
struct Stretch<'a> {
    word: &'a [u8],
    longest: &'a [u16],
    from: usize,
}

// One place of a stretch: answers the number of runs, which was `count` before. The list lies in the buffer that C lends,
// so it and its number stay two.
fn visit_place<S: Sink>(stretch: Stretch<'_>, i: usize, runs: &mut [u16], count: usize) -> usize
    requires { PlaceRoom stretch.word.now stretch.longest.now i stretch.from runs.old count S.stores }
    ensures { Visited stretch.entry.from runs.old count S.stores (found_at most_byte stretch.entry.word.now i) result runs.new }
{
    match run_at(stretch.word, stretch.longest, i) {
        None => count,
        Some(found) => {
            let run = Run {
                first: stretch.from + found.first,
                end: stretch.from + found.end,
                period: found.period,
            };
            S::put(runs, count, run);
            count + 1
        }
    }
}

// All places of a stretch.
fn visit<S: Sink>(stretch: Stretch<'_>, runs: &mut [u16], count: usize) -> usize
    requires { VisitRoom stretch.word.now stretch.longest.now stretch.from runs.old count S.stores (all_found stretch.word.now) }
    ensures { Visited stretch.entry.from runs.old count S.stores (all_found stretch.entry.word.now) result runs.new }
{
    let mut total = count;
    for i in 1..stretch.word.len() {
        total = visit_place::<S>(stretch, i, runs, total);
    }
    total
}

// Where the stretch ends that begins at `from`: at the next separator, or with the record. By the slice's `position` the
// proof did not close.
fn stretch_end(word: &[u8], from: usize) -> usize
    requires { from < length word.now }
    ensures { StretchEnds word.now from result }
{
    for end in from..word.len() {
        if word[end] == words::SEPARATOR {
            return end;
        }
    }
    word.len()
}

// The runs of a record, stretch by stretch.
fn walk<S: Sink>(word: &[u8], longest: &mut [u16], runs: &mut [u16]) -> usize
    requires { WalkRoom word.now longest.old runs.old S.stores }
    ensures { Walked word.now runs.old S.stores result runs.new }
{
    let mut count: usize = 0;
    let mut from: usize = 0;
    while from < word.len() {
        let end = stretch_end(word, from);
        fill_longest(&word[from..end], longest);
        let stretch = Stretch {
            word: &word[from..end],
            longest: &*longest,
            from,
        };
        count = visit::<S>(stretch, runs, count);
        from = end + 1;
    }
    count
}

/// The number of runs of a record.
pub fn count_runs(word: &[u8], longest: &mut [u16]) -> usize
    requires { CountRoom word.now longest.old }
    ensures { result ≡ length (separated_runs word.now) }
{
    walk::<Count>(word, longest, &mut [])
}

/// Writes the runs of a record into the first entries of `runs`, and answers their number.
pub fn list_runs(word: &[u8], longest: &mut [u16], runs: &mut [u16]) -> usize
    requires { ListRoom word.now longest.old runs.old }
    ensures { RunsListed word.now runs.old result runs.new }
{
    walk::<List>(word, longest, runs)
}
