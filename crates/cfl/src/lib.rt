//! The Lyndon factorization in the inverse order (paper 01: the strict cut).
#![tactic(auto)]

ghost use Rattle.std.specs.Prelude.{◌≡◌, [], ◌≤◌, length};
ghost use Rattle.words.specs.Words.{most_letters};
ghost use Rattle.checks.specs.Lines.{tried, record_lines};
ghost use Rattle.checks.specs.Answers.{outcome, count_says};
ghost use Rattle.cfl.specs.CflIn.{cfl_in_lines, CflInDone};

use checks::{Record, Refusal};

// Line 4. There are no more factors than letters, so they are counted only for a buffer that is shorter than the word.
fn check_room(word: &[u8], entries: usize) -> Result<(), Refusal>
    requires { length word.now ≤ most_letters }
    ensures { outcome result ≡ tried (cfl_in_lines word.now entries) }
{
    if word.len() <= entries {
        return Ok(());
    }
    checks::check_result(entries, strict::count_factors(word))
}

/// The strict cut of an accepted record: the call's own line, 4, and its work.
pub fn cut(admitted: Record, ends: &mut [u16]) -> Result<usize, Refusal>
    ensures { CflInDone [] admitted.entry.letters.now ends.old (count_says result) ends.new }
{
    check_room(admitted.letters, ends.len())?;
    Ok(strict::write_ends(admitted.letters, ends))
}

/// The strict cut: writes the ends of the factors from entry 0 on, and answers their number. Each separator is a
/// factor, and each stretch between two is cut by itself. Refusals 1, 2, 4.
pub fn cfl_in(word: &[u8], ends: &mut [u16]) -> Result<usize, Refusal>
    ensures { CflInDone (record_lines word.now) word.now ends.old (count_says result) ends.new }
{
    let admitted = Record::admit(word)?;
    cut(admitted, ends)
}
