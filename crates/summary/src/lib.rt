//! The summary of the parts that a paired list marks in a record. The list may be any that line 7 of the refusals
//! accepts; it need not be a factorization.
#![tactic(auto)]

ghost use Rattle.std.specs.Prelude.{◌≡◌, ℕ, ◌+◌, List, []};
ghost use Rattle.words.specs.Pairs.{ends_of};
ghost use Rattle.checks.specs.Lines.{record_lines};
ghost use Rattle.summary.specs.Tallies.{Tallied, NextEnd};
ghost use Rattle.summary.specs.Summary.{bit_length_of, summary_of, summary_says, Summarized, Summable};

use checks::{Record, Refusal};

/// What the parts come to.
#[derive(Clone, Copy, Drop)]
pub struct Summary {
    /// How many parts there are.
    pub count: u16,
    /// The greatest length of a part.
    pub longest: u16,
    /// Where the latest part of that length begins.
    pub from: u16,
    /// At k: how many parts have a length of k + 1 binary digits.
    pub bands: [u16; 13],
}

/// The number of binary digits of n.
pub fn bit_length(n: u16) -> usize
    ensures { result ≡ bit_length_of n }
{
    let zeros = n.leading_zeros();
    (16 - zeros) as usize
}

/// The summary of the parts that came so far, and where the last of them ends.
#[derive(Drop)]
pub struct Tally {
    pub summary: Summary,
    pub last: u16,
}

impl Tally {
    /// No part yet.
    pub fn new() -> Tally
        ensures { (es : List ℕ) → Tallied es result }
    {
        Tally {
            summary: Summary {
                count: 0,
                longest: 0,
                from: 0,
                bands: [0; 13],
            },
            last: 0,
        }
    }

    /// One part more, up to `end`. It takes the place of the longest before it unless it is shorter.
    pub fn add(&mut self, end: u16)
        requires { (es : List ℕ) × NextEnd es self.old end }
        ensures adds { (es : List ℕ) → NextEnd es self.old end → Tallied es self.new }
        ensures counts { self.new.summary.count ≡ self.old.summary.count + 1 }
    {
        let size = end - self.last;
        if self.summary.longest <= size {
            self.summary.longest = size;
            self.summary.from = self.last;
        }
        let band = bit_length(size) - 1;
        self.summary.bands[band] += 1;
        self.summary.count += 1;
        self.last = end;
    }
}

/// The summary of the parts that a paired list marks, part by part as a `Tally` takes them. Its numbers stand beside the
/// bands here: in one struct with them none stays in a register, and a list of a part or two takes a third more time.
pub fn sum_up(pairs: &[u16]) -> Summary
    requires { Summable (ends_of pairs.now) }
    ensures { result ≡ summary_of (ends_of pairs.now) }
{
    let count = pairs::count(pairs);
    let mut bands = [0u16; 13];
    let mut longest: u16 = 0;
    let mut from: u16 = 0;
    let mut last: u16 = 0;
    for i in 0..count {
        let end = pairs::factor_end(pairs, i);
        let size = end - last;
        if longest <= size {
            longest = size;
            from = last;
        }
        let band = bit_length(size) - 1;
        bands[band] += 1;
        last = end;
    }
    Summary {
        count: count as u16,
        longest,
        from,
        bands,
    }
}

/// The summary for an accepted record: the call's own line, 7, and its work.
pub fn summarize_pairs(admitted: Record, pairs: &[u16]) -> Result<Summary, Refusal>
    ensures { Summarized [] admitted.entry.letters.now pairs.now (summary_says result) }
{
    checks::check_pairs(pairs, admitted.letters.len())?;
    Ok(sum_up(pairs))
}

/// The summary of a record and a paired list. Refusals 1, 2, 7.
pub fn summarize(word: &[u8], pairs: &[u16]) -> Result<Summary, Refusal>
    ensures { Summarized (record_lines word.now) word.now pairs.now (summary_says result) }
{
    let admitted = Record::admit(word)?;
    summarize_pairs(admitted, pairs)
}
