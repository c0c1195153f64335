//! The calls for C and Rust: include/metsroeb.h has their signatures. Each returns the refusal's number, 0 for a
//! result, or a struct that holds it; results go to that struct or to numbers that the caller lends, 0 beside a refusal.
//! Each promises the numbers of an answer that the library's own promise allows.
#![tactic(auto)]

ghost use Rattle.std.specs.Prelude.{◌≡◌};
ghost use Rattle.extension.specs.Extension.{ExtensionFound};
ghost use Rattle.icfl.specs.Icfl.{IcflDone};
ghost use Rattle.icfl_breaks.specs.IcflBreaks.{BreaksDone};
ghost use Rattle.batch.specs.Batch.{BatchDone};
ghost use Rattle.cfl.specs.CflIn.{CflInDone};
ghost use Rattle.table.specs.Table.{Tabled};
ghost use Rattle.runs.specs.Runs.{RunsDone};
ghost use Rattle.compare.specs.Compare.{Compared};
ghost use Rattle.summary.specs.Summary.{Summarized};
ghost use Rattle.numbers.specs.Numbers.{test_numbers, count_numbers, breaks_numbers, batch_numbers, comparison_numbers, summary_numbers};
ghost use Rattle.exports.specs.Exports.{export_door, Gives, factor_numbers, place_numbers};

use checks::{Record, Refusal};
use compare::Starts;
use numbers::{Replies, SummaryReply};

// Where part `number` begins and ends.
fn places_of(word: &[u8], pairs: &[u16], number: usize) -> Result<(u16, u16), Refusal>
    ensures { place_numbers result ≡ factor_numbers (export_door word.now) word.now pairs.now number }
{
    let admitted = Record::admit(word)?;
    checks::check_part(pairs, admitted.letters.len(), number)?;
    Ok((
        pairs::factor_from(pairs, number),
        pairs::factor_end(pairs, number),
    ))
}

pub fn metsroeb_test(
    word: &[u8],
    work: &mut [u16],
    failing: &mut u16,
    prefix: &mut u16,
    border: &mut u16,
) -> u8
    ensures { Gives test_numbers (result, failing.new, prefix.new, border.new)
        (λ said. ExtensionFound (export_door word.now) word.now work.old said work.new) }
{
    numbers::tell_test(
        extension::find_extension(word, work),
        failing,
        prefix,
        border,
    )
}

pub fn metsroeb_icfl(word: &[u8], work: &mut [u16], pairs: &mut [u16], count: &mut u16) -> u8
    ensures { Gives count_numbers (result, count.new)
        (λ said. IcflDone (export_door word.now) word.now work.old pairs.old said
        work.new pairs.new) }
{
    numbers::tell_count(icfl::icfl(word, work, pairs), count)
}

pub fn metsroeb_icfl_breaks(
    word: &[u8],
    work: &mut [u16],
    pairs: &mut [u16],
    breaks: &mut [u16],
    count: &mut u16,
    break_count: &mut u16,
) -> u8
    ensures { Gives breaks_numbers (result, count.new, break_count.new)
        (λ said. BreaksDone (export_door word.now) word.now work.old pairs.old breaks.old said
        work.new pairs.new breaks.new) }
{
    let answer = icfl_breaks::icfl_with_breaks(word, work, pairs, breaks);
    numbers::tell_breaks(answer, count, break_count)
}

pub fn metsroeb_icfl_batch(
    bytes: &[u8],
    record_ends: &[u32],
    work: &mut [u16],
    pairs: &mut [u16],
) -> Replies
    ensures { Gives batch_numbers result
        (λ said. BatchDone export_door bytes.now record_ends.now work.old pairs.old said
        work.new pairs.new) }
{
    let answers = batch::icfl_batch(bytes, record_ends, work, pairs);
    numbers::numbers_of_batch(answers, record_ends.len())
}

pub fn metsroeb_cfl_in(word: &[u8], ends: &mut [u16], count: &mut u16) -> u8
    ensures { Gives count_numbers (result, count.new)
        (λ said. CflInDone (export_door word.now) word.now ends.old said ends.new) }
{
    numbers::tell_count(cfl::cfl_in(word, ends), count)
}

pub fn metsroeb_lyndon_table(word: &[u8], lengths: &mut [u16], count: &mut u16) -> u8
    ensures { Gives count_numbers (result, count.new)
        (λ said. Tabled (export_door word.now) word.now lengths.old said lengths.new) }
{
    numbers::tell_count(table::lyndon_table(word, lengths), count)
}

pub fn metsroeb_runs(word: &[u8], runs: &mut [u16], count: &mut u16) -> u8
    ensures { Gives count_numbers (result, count.new)
        (λ said. RunsDone (export_door word.now) word.now runs.old said runs.new) }
{
    numbers::tell_count(runs::runs(word, runs), count)
}

pub fn metsroeb_compare(
    word: &[u8],
    first: usize,
    end: usize,
    start: usize,
    other: usize,
    sign: &mut i8,
    common: &mut u16,
) -> u8
    ensures { Gives comparison_numbers (result, sign.new, common.new)
        (λ said. Compared (export_door word.now) word.now first end start other said) }
{
    let starts = Starts {
        first,
        end,
        start,
        other,
    };
    numbers::tell_comparison(compare::compare_suffixes(word, starts), sign, common)
}

pub fn metsroeb_factor(
    word: &[u8],
    pairs: &[u16],
    number: usize,
    first: &mut u16,
    end: &mut u16,
) -> u8
    ensures { (result, first.new, end.new)
        ≡ factor_numbers (export_door word.now) word.now pairs.now number }
{
    match places_of(word, pairs, number) {
        Ok((from, to)) => {
            *first = from;
            *end = to;
            0
        }
        Err(e) => {
            *first = 0;
            *end = 0;
            u8::from(e)
        }
    }
}

pub fn metsroeb_summarize(word: &[u8], pairs: &[u16]) -> SummaryReply
    ensures { Gives summary_numbers result
        (λ said. Summarized (export_door word.now) word.now pairs.now said) }
{
    numbers::numbers_of_summary(summary::summarize(word, pairs))
}
