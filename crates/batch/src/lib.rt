//! A batch: records one after another, each cut as by the piece cut alone (paper 02: a card).
#![tactic(auto)]

ghost use Rattle.std.specs.Prelude.{◌≡◌, ◌*◌, ◌≤◌};
ghost use Rattle.words.specs.Words.{most_letters};
ghost use Rattle.checks.specs.Lines.{record_lines};
ghost use Rattle.checks.specs.Answers.{count_says};
ghost use Rattle.batch.specs.Batch.{used_entries, batch_says, BatchDone};

pub use checks::MOST_RECORDS;
use checks::Refusal;

/// What a batch comes to: the records' answers in their order, `Ok(0)` in the places past the last record.
pub type Answers = [Result<usize, Refusal>; MOST_RECORDS];

// The entries of the result buffer that an answer uses: a pair for each factor.
fn entries_used(answer: Result<usize, Refusal>) -> usize
    requires { used_entries (count_says answer) ≤ 2 * most_letters }
    ensures { result ≡ used_entries (count_says answer) }
{
    match answer {
        Ok(n) => pairs::entries(n),
        Err(_) => 0,
    }
}

/// Cuts up to 64 records that stand one after another in `bytes`, each up to its entry of `record_ends`. Each answer is
/// the piece cut's with what is left of `pairs`: a refused record uses no entry, and the next one is still tried. Ends
/// count from their own record's start, and the pairs of all records stand from entry 0 on without gaps. Refusal 10,
/// before any record, where the list is empty, has more than 64 ends, falls somewhere, or does not end with the bytes
/// lent; both buffers then stay as they were. Otherwise the first entries of `work`, three for each letter of the
/// longest record that was cut or refused by 4, are zero.
pub fn icfl_batch(
    bytes: &[u8],
    record_ends: &[u32],
    work: &mut [u16],
    pairs: &mut [u16],
) -> Result<Answers, Refusal>
    ensures { BatchDone record_lines bytes.now record_ends.now work.old pairs.old (batch_says result)
        work.new pairs.new }
{
    checks::check_record_ends(record_ends, bytes.len())?;
    let mut answers = [Ok(0); MOST_RECORDS];
    let mut from: usize = 0;
    let mut used: usize = 0;
    for (i, record_end) in record_ends.iter().enumerate() {
        let end = *record_end as usize;
        let answer = icfl::icfl(&bytes[from..end], work, &mut pairs[used..]);
        used += entries_used(answer);
        answers[i] = answer;
        from = end;
    }
    Ok(answers)
}
