//! What the pairs of a listing come to (request 109), beside the numbers and the bands that it gives.
#![tactic(auto)]

ghost use Rattle.totals.specs.Totals.{Summed, SummedUp, ListDecided};

use parsing::{Items, Pairs};
use summary::{Summary, Tally};

/// The summary of the parts that the pairs mark which stand in a text.
pub fn sum_pairs(pairs: Pairs) -> Summary
    requires { Summed pairs.items.text.now pairs.items.next }
    ensures { SummedUp pairs.entry.items.text.now pairs.entry.items.next result }
{
    let mut tally = Tally::new();
    for pair in pairs {
        tally.add(pair.end as u16);
    }
    tally.summary
}

/// Whether the numbers that stand in a text are those given.
pub fn list_is(mut items: Items, numbers: &[u16]) -> bool
    ensures { ListDecided items.entry.text.now items.entry.next numbers.now result }
{
    for number in numbers {
        if items.next() != Some(*number) {
            return false;
        }
    }
    items.next().is_none()
}
