//! The runs of a record (request 107; the paper's word is repetition): every stretch of letters that a period makes, as
//! long as it can be, with its smallest period.
#![tactic(auto)]

ghost use Rattle.std.specs.Prelude.{◌≡◌, []};
ghost use Rattle.checks.specs.Lines.{record_lines, tried};
ghost use Rattle.checks.specs.Answers.{outcome, count_says};
ghost use Rattle.runs.specs.Runs.{runs_lines, RunsDone};
ghost use Rattle.runs.specs.Room.{RoomAsked};

use checks::{Record, Refusal};

// Line 4. There are fewer runs than letters (the "Runs" theorem), so they are counted only for a buffer that is shorter
// than that.
fn check_room(word: &[u8], longest: &mut [u16], entries: usize) -> Result<(), Refusal>
    requires { RoomAsked word.now longest.old }
    ensures { outcome result ≡ tried (runs_lines word.now entries) }
{
    if 3 * (word.len() - 1) <= entries {
        return Ok(());
    }
    let count = walking::count_runs(word, longest);
    checks::check_result(entries, 3 * count)
}

/// The runs of an accepted record: the call's own line, 4, and its work.
pub fn list_runs(admitted: Record, runs: &mut [u16]) -> Result<usize, Refusal>
    ensures { RunsDone [] admitted.entry.letters.now runs.old (count_says result) runs.new }
{
    let mut longest = [0u16; checks::MOST];
    check_room(admitted.letters, &mut longest, runs.len())?;
    Ok(walking::list_runs(admitted.letters, &mut longest, runs))
}

/// The runs of a record: writes them by first place and then by period, three entries each (first place, end and
/// period), from entry 0 on, and answers their number. Separators belong to none. Refusals 1, 2, 4; no work buffer is
/// lent, the call keeps 4,096 entries of its own.
pub fn runs(word: &[u8], runs: &mut [u16]) -> Result<usize, Refusal>
    ensures { RunsDone (record_lines word.now) word.now runs.old (count_says result) runs.new }
{
    let admitted = Record::admit(word)?;
    list_runs(admitted, runs)
}
