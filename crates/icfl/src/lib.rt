//! The canonical inverse Lyndon factorization (paper 01: the piece cut), stretch by stretch (request 103).
#![tactic(auto)]

ghost use Rattle.std.specs.Prelude.{[]};
ghost use Rattle.checks.specs.Lines.{record_lines};
ghost use Rattle.checks.specs.Answers.{count_says};
ghost use Rattle.icfl.specs.Icfl.{EndsFound, PairsFilled, IcflDone};

use checks::{Record, Refusal};

// Line 4, and the pairs, given the ends of the factors. Answers the number of factors.
fn fill_pairs(word: &[u8], ends: &[u16], pairs: &mut [u16]) -> Result<usize, Refusal>
    requires { EndsFound word.now ends.now }
    ensures { PairsFilled word.now pairs.old (count_says result) pairs.new }
{
    let count = ends.len();
    checks::check_result(pairs.len(), pairs::entries(count))?;
    pairs::write_pairs(word, ends, pairs);
    Ok(count)
}

/// The piece cut of an accepted record: the call's own lines, 3 and 4, and its work.
pub fn cut(admitted: Record, work: &mut [u16], pairs: &mut [u16]) -> Result<usize, Refusal>
    ensures { IcflDone [] admitted.entry.letters.now work.old pairs.old (count_says result) work.new pairs.new }
{
    let word = admitted.letters;
    let n = word.len();
    checks::check_work(work.len(), 3 * n)?;
    let found = breaks::find_ends(word, work);
    let filled = fill_pairs(word, &work[found.first..n], pairs);
    buffers::clear(work, 3 * n);
    filled
}

/// The piece cut: writes a pair for each factor from entry 0 on, its end and the number of anti-Lyndon factors inside,
/// and answers the number of factors. Each separator is a factor, and each stretch between two is cut by itself.
/// Refusals 1, 2, 3, 4; a pair is two entries. After a result and after 4 the first entries of `work`, three for each
/// letter, are zero.
pub fn icfl(word: &[u8], work: &mut [u16], pairs: &mut [u16]) -> Result<usize, Refusal>
    ensures { IcflDone (record_lines word.now) word.now work.old pairs.old (count_says result)
        work.new pairs.new }
{
    let admitted = Record::admit(word)?;
    cut(admitted, work, pairs)
}
