//! The reader: a part of a record by its number in a paired list. The list may be any that line 7 of the refusals
//! accepts; it need not be a factorization.
#![tactic(auto)]

ghost use Rattle.std.specs.Prelude.{[]};
ghost use Rattle.checks.specs.Lines.{record_lines};
ghost use Rattle.reading.specs.Factor.{part_of, FactorAt};
ghost use Rattle.checks.specs.Answers.{outcome, checked_number};

use checks::{Record, Refusal};

/// Part `number` of an accepted record: the call's own lines, 7 and 8, and its work.
pub fn part_at<'a>(admitted: Record<'a>, pairs: &[u16], number: usize) -> Result<&'a [u8], Refusal>
    ensures { FactorAt [] admitted.entry.letters.now pairs.now number (part_of result) (checked_number (outcome result)) }
{
    checks::check_part(pairs, admitted.letters.len(), number)?;
    let from = pairs::factor_from(pairs, number) as usize;
    let end = pairs::factor_end(pairs, number) as usize;
    Ok(&admitted.letters[from..end])
}

/// Part `number`, counted from 0, of the record: the letters from the end before it to its own end in `pairs`, the
/// first from place 0. Refusals 1, 2, 7, 8.
pub fn factor_at<'a>(word: &'a [u8], pairs: &[u16], number: usize) -> Result<&'a [u8], Refusal>
    ensures { FactorAt (record_lines word.now) word.now pairs.now number (part_of result) (checked_number (outcome result)) }
{
    let admitted = Record::admit(word)?;
    part_at(admitted, pairs, number)
}
