//! The Lyndon table (start table): at each place, the length of the longest anti-Lyndon word that starts there and does
//! not reach past the stretch that the place lies in.
#![tactic(auto)]

ghost use Rattle.std.specs.Prelude.{[]};
ghost use Rattle.checks.specs.Lines.{record_lines};
ghost use Rattle.checks.specs.Answers.{count_says};
ghost use Rattle.table.specs.Table.{Tabled};

use checks::{Record, Refusal};

/// The start table of an accepted record: the call's own line, 4, and its work.
pub fn tabulate(admitted: Record, lengths: &mut [u16]) -> Result<usize, Refusal>
    ensures { Tabled [] admitted.entry.letters.now lengths.old (count_says result) lengths.new }
{
    let word = admitted.letters;
    checks::check_result(lengths.len(), word.len())?;
    merging::fill_table(word, lengths);
    Ok(word.len())
}

/// The start table: writes the Lyndon table of each stretch between separators, with 1 for a separator, into the first
/// entries of `lengths`, as many as the word has letters, and answers their number. Refusals 1, 2, 4.
pub fn lyndon_table(word: &[u8], lengths: &mut [u16]) -> Result<usize, Refusal>
    ensures { Tabled (record_lines word.now) word.now lengths.old (count_says result) lengths.new }
{
    let admitted = Record::admit(word)?;
    tabulate(admitted, lengths)
}
