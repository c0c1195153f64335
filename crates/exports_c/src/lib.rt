//! The static library for C and Rust: include/metsroeb.h has its signatures. Each function is the one of its name in
//! the crate exports, and says the same promise: another crate cannot stand on a static library, and C cannot call a
//! function without `no_mangle`.
#![tactic(auto)]

ghost use Rattle.std.specs.Prelude.{◌≡◌};
ghost use Rattle.extension.specs.Extension.{ExtensionFound};
ghost use Rattle.icfl.specs.Icfl.{IcflDone};
ghost use Rattle.icfl_breaks.specs.IcflBreaks.{BreaksDone};
ghost use Rattle.batch.specs.Batch.{BatchDone};
ghost use Rattle.cfl.specs.CflIn.{CflInDone};
ghost use Rattle.table.specs.Table.{Tabled};
ghost use Rattle.runs.specs.Runs.{RunsDone};
ghost use Rattle.compare.specs.Compare.{Compared};
ghost use Rattle.summary.specs.Summary.{Summarized};
ghost use Rattle.numbers.specs.Numbers.{test_numbers, count_numbers, breaks_numbers, batch_numbers, comparison_numbers, summary_numbers};
ghost use Rattle.exports.specs.Exports.{export_door, Gives, factor_numbers};

use numbers::{Replies, SummaryReply};

#[unsafe(no_mangle)]
pub extern "C" fn metsroeb_test(
    word: &[u8],
    work: &mut [u16],
    failing: &mut u16,
    prefix: &mut u16,
    border: &mut u16,
) -> u8
    ensures { Gives test_numbers (result, failing.new, prefix.new, border.new)
        (λ said. ExtensionFound (export_door word.now) word.now work.old said work.new) }
{
    exports::metsroeb_test(word, work, failing, prefix, border)
}

#[unsafe(no_mangle)]
pub extern "C" fn metsroeb_icfl(
    word: &[u8],
    work: &mut [u16],
    pairs: &mut [u16],
    count: &mut u16,
) -> u8
    ensures { Gives count_numbers (result, count.new)
        (λ said. IcflDone (export_door word.now) word.now work.old pairs.old said
        work.new pairs.new) }
{
    exports::metsroeb_icfl(word, work, pairs, count)
}

#[unsafe(no_mangle)]
pub extern "C" fn metsroeb_icfl_breaks(
    word: &[u8],
    work: &mut [u16],
    pairs: &mut [u16],
    breaks: &mut [u16],
    count: &mut u16,
    break_count: &mut u16,
) -> u8
    ensures { Gives breaks_numbers (result, count.new, break_count.new)
        (λ said. BreaksDone (export_door word.now) word.now work.old pairs.old breaks.old said
        work.new pairs.new breaks.new) }
{
    exports::metsroeb_icfl_breaks(word, work, pairs, breaks, count, break_count)
}

#[unsafe(no_mangle)]
pub extern "C" fn metsroeb_icfl_batch(
    bytes: &[u8],
    record_ends: &[u32],
    work: &mut [u16],
    pairs: &mut [u16],
) -> Replies
    ensures { Gives batch_numbers result
        (λ said. BatchDone export_door bytes.now record_ends.now work.old pairs.old said
        work.new pairs.new) }
{
    exports::metsroeb_icfl_batch(bytes, record_ends, work, pairs)
}

#[unsafe(no_mangle)]
pub extern "C" fn metsroeb_cfl_in(word: &[u8], ends: &mut [u16], count: &mut u16) -> u8
    ensures { Gives count_numbers (result, count.new)
        (λ said. CflInDone (export_door word.now) word.now ends.old said ends.new) }
{
    exports::metsroeb_cfl_in(word, ends, count)
}

#[unsafe(no_mangle)]
pub extern "C" fn metsroeb_lyndon_table(word: &[u8], lengths: &mut [u16], count: &mut u16) -> u8
    ensures { Gives count_numbers (result, count.new)
        (λ said. Tabled (export_door word.now) word.now lengths.old said lengths.new) }
{
    exports::metsroeb_lyndon_table(word, lengths, count)
}

#[unsafe(no_mangle)]
pub extern "C" fn metsroeb_runs(word: &[u8], runs: &mut [u16], count: &mut u16) -> u8
    ensures { Gives count_numbers (result, count.new)
        (λ said. RunsDone (export_door word.now) word.now runs.old said runs.new) }
{
    exports::metsroeb_runs(word, runs, count)
}

#[unsafe(no_mangle)]
pub extern "C" fn metsroeb_compare(
    word: &[u8],
    first: usize,
    end: usize,
    start: usize,
    other: usize,
    sign: &mut i8,
    common: &mut u16,
) -> u8
    ensures { Gives comparison_numbers (result, sign.new, common.new)
        (λ said. Compared (export_door word.now) word.now first end start other said) }
{
    exports::metsroeb_compare(word, first, end, start, other, sign, common)
}

#[unsafe(no_mangle)]
pub extern "C" fn metsroeb_factor(
    word: &[u8],
    pairs: &[u16],
    number: usize,
    first: &mut u16,
    end: &mut u16,
) -> u8
    ensures { (result, first.new, end.new)
        ≡ factor_numbers (export_door word.now) word.now pairs.now number }
{
    exports::metsroeb_factor(word, pairs, number, first, end)
}

#[unsafe(no_mangle)]
pub extern "C" fn metsroeb_summarize(word: &[u8], pairs: &[u16]) -> SummaryReply
    ensures { Gives summary_numbers result
        (λ said. Summarized (export_door word.now) word.now pairs.now said) }
{
    exports::metsroeb_summarize(word, pairs)
}
