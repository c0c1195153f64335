//! The piece cut with its breaks beside it: why each factor ends where it does.
#![tactic(auto)]

ghost use Rattle.std.specs.Prelude.{[]};
ghost use Rattle.checks.specs.Lines.{record_lines};
ghost use Rattle.icfl_breaks.specs.IcflBreaks.{CutsKnown, BothFilled, BreaksDone, breaks_says};

use breaks::Found;
use checks::{Record, Refusal};

/// How many factors and how many breaks a record has.
#[derive(Clone, Copy, Drop)]
pub struct Counts {
    pub factors: usize,
    pub breaks: usize,
}

// Line 4 for either result buffer, then the pairs and the breaks, given the ends and the cuts.
fn fill_both(
    word: &[u8],
    work: &[u16],
    found: Found,
    pairs: &mut [u16],
    breaks: &mut [u16],
) -> Result<Counts, Refusal>
    requires { CutsKnown word.now work.now found }
    ensures { BothFilled word.now pairs.old breaks.old (breaks_says result) pairs.new breaks.new }
{
    let ends = &work[found.first..word.len()];
    let counts = Counts {
        factors: ends.len(),
        breaks: found.breaks,
    };
    checks::check_result(pairs.len(), pairs::entries(counts.factors))?;
    checks::check_result(breaks.len(), 5 * counts.breaks)?;
    pairs::write_pairs(word, ends, pairs);
    fates::write_breaks(word, work, found, breaks);
    Ok(counts)
}

/// The piece cut with its reasons of an accepted record: the call's own lines, 3 and twice 4, and its work. The steps are
/// those of `icfl::cut`; what would serve both takes the filling as a closure over the lent buffers, with its promise.
pub fn cut_with_breaks(
    admitted: Record,
    work: &mut [u16],
    pairs: &mut [u16],
    breaks: &mut [u16],
) -> Result<Counts, Refusal>
    ensures { BreaksDone [] admitted.entry.letters.now work.old pairs.old breaks.old (breaks_says result)
        work.new pairs.new breaks.new }
{
    let word = admitted.letters;
    let n = word.len();
    checks::check_work(work.len(), 3 * n)?;
    let found = breaks::find_ends(word, work);
    let filled = fill_both(word, work, found, pairs, breaks);
    buffers::clear(work, 3 * n);
    filled
}

/// The piece cut with its reasons: writes the pairs as the piece cut does, and the breaks of all stretches from left to
/// right, five entries each: the place where p ends, the place where that step began, |r|; then the two letters for a
/// kept one, 256 and what the joined factor lacks of |r| for a joined one. Refusals 1, 2, 3, 4 for the pairs, 4 for the
/// breaks; either 4 leaves both result buffers as they were. The work buffer is left as by the piece cut.
pub fn icfl_with_breaks(
    word: &[u8],
    work: &mut [u16],
    pairs: &mut [u16],
    breaks: &mut [u16],
) -> Result<Counts, Refusal>
    ensures { BreaksDone (record_lines word.now) word.now work.old pairs.old breaks.old (breaks_says result)
        work.new pairs.new breaks.new }
{
    let admitted = Record::admit(word)?;
    cut_with_breaks(admitted, work, pairs, breaks)
}
