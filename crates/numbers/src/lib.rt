//! The answers of the calls as numbers, for callers in C and Rust: the refusal's number, 0 for a result, and beside it
//! the result's numbers, 0 with a refusal. They have sixteen bits, so each function asks that they fit.
#![tactic(auto)]

ghost use Rattle.std.specs.Prelude.{◌≡◌};
ghost use Rattle.checks.specs.Answers.{count_says};
ghost use Rattle.extension.specs.Extension.{test_says};
ghost use Rattle.icfl_breaks.specs.IcflBreaks.{breaks_says};
ghost use Rattle.compare.specs.Compare.{comparison_says};
ghost use Rattle.batch.specs.Batch.{batch_says};
ghost use Rattle.summary.specs.Summary.{summary_says};
ghost use Rattle.numbers.specs.Numbers.{count_numbers, test_numbers, breaks_numbers, comparison_numbers, batch_numbers, summary_numbers};
ghost use Rattle.numbers.specs.Numbers.{SmallCount, SmallTest, SmallBreaks, SmallComparison, SmallBatch};

use batch::{Answers, MOST_RECORDS};
use checks::Refusal;
use compare::Order;
use extension::Extension;
use icfl_breaks::Counts;
use summary::Summary;

/// A count or a refusal, as two numbers: C has no `Result`, so a 0 in the one says that the other counts. The structs below
/// are so for the same reason.
#[repr(C)]
#[derive(Clone, Copy)]
pub struct Reply {
    pub refusal: u8,
    pub count: u16,
}

/// What a batch comes to: the refusal's number, and a reply for each place.
#[repr(C)]
#[derive(Clone, Copy, Drop)]
pub struct Replies {
    pub refusal: u8,
    pub replies: [Reply; MOST_RECORDS],
}

/// A summary or a refusal: the refusal's number, and the summary's numbers.
#[repr(C)]
#[derive(Clone, Copy, Drop)]
pub struct SummaryReply {
    pub refusal: u8,
    pub count: u16,
    pub longest: u16,
    pub from: u16,
    pub bands: [u16; 13],
}

// A count or a refusal.
fn numbers_of(answer: Result<usize, Refusal>) -> Reply
    requires { SmallCount (count_says answer) }
    ensures { (result.refusal, result.count) ≡ count_numbers (count_says answer) }
{
    match answer {
        Ok(n) => Reply {
            refusal: 0,
            count: n as u16,
        },
        Err(e) => Reply {
            refusal: u8::from(e),
            count: 0,
        },
    }
}

/// Leaves the count, and gives the refusal's number.
pub fn tell_count(answer: Result<usize, Refusal>, count: &mut u16) -> u8
    requires { SmallCount (count_says answer) }
    ensures { (result, count.new) ≡ count_numbers (count_says answer) }
{
    let numbers = numbers_of(answer);
    *count = numbers.count;
    numbers.refusal
}

/// Leaves L, |p| and |r|, all 0 for an inverse Lyndon word, and gives the refusal's number.
pub fn tell_test(
    answer: Result<Option<Extension>, Refusal>,
    failing: &mut u16,
    prefix: &mut u16,
    border: &mut u16,
) -> u8
    requires { SmallTest (test_says answer) }
    ensures { (result, failing.new, prefix.new, border.new) ≡ test_numbers (test_says answer) }
{
    *failing = 0;
    *prefix = 0;
    *border = 0;
    match answer {
        Ok(None) => 0,
        Ok(Some(found)) => {
            *failing = found.failing as u16;
            *prefix = found.prefix as u16;
            *border = found.border as u16;
            0
        }
        Err(e) => u8::from(e),
    }
}

/// Leaves the number of factors and that of breaks, and gives the refusal's number.
pub fn tell_breaks(answer: Result<Counts, Refusal>, count: &mut u16, break_count: &mut u16) -> u8
    requires { SmallBreaks (breaks_says answer) }
    ensures { (result, count.new, break_count.new) ≡ breaks_numbers (breaks_says answer) }
{
    match answer {
        Ok(counts) => {
            *count = counts.factors as u16;
            *break_count = counts.breaks as u16;
            0
        }
        Err(e) => {
            *count = 0;
            *break_count = 0;
            u8::from(e)
        }
    }
}

/// Leaves the sign and how far the two agree, and gives the refusal's number.
pub fn tell_comparison(answer: Result<Order, Refusal>, sign: &mut i8, common: &mut u16) -> u8
    requires { SmallComparison (comparison_says answer) }
    ensures { (result, sign.new, common.new) ≡ comparison_numbers (comparison_says answer) }
{
    match answer {
        Ok(order) => {
            *sign = order.sign as i8;
            *common = order.common as u16;
            0
        }
        Err(e) => {
            *sign = 0;
            *common = 0;
            u8::from(e)
        }
    }
}

// What stands beside a refusal.
const NO_SUMMARY: Summary = Summary {
    count: 0,
    longest: 0,
    from: 0,
    bands: [0; 13],
};

/// A summary or a refusal.
pub fn numbers_of_summary(answer: Result<Summary, Refusal>) -> SummaryReply
    ensures { result ≡ summary_numbers (summary_says answer) }
{
    let (refusal, summary) = match answer {
        Ok(summary) => (0, summary),
        Err(e) => (u8::from(e), NO_SUMMARY),
    };
    let bands = summary.bands;
    SummaryReply {
        refusal,
        count: summary.count,
        longest: summary.longest,
        from: summary.from,
        bands,
    }
}

/// A batch of so many records: the refusal's number, and a reply for each place. Past the last record both of its
/// numbers are 0.
pub fn numbers_of_batch(answer: Result<Answers, Refusal>, records: usize) -> Replies
    requires { SmallBatch (batch_says answer) records }
    ensures { result ≡ batch_numbers (batch_says answer) }
{
    let mut replies = [Reply {
        refusal: 0,
        count: 0,
    }; MOST_RECORDS];
    match answer {
        Ok(places) => {
            for i in 0..records.min(MOST_RECORDS) {
                replies[i] = numbers_of(places[i]);
            }
            Replies {
                refusal: 0,
                replies,
            }
        }
        Err(refusal) => Replies {
            refusal: u8::from(refusal),
            replies,
        },
    }
}
