//! The lists of a listing beside their record (request 109): whether the pairs and the strict ends that stand in a text
//! are the record's own. Nothing is cut: pairs are judged part by part, strict ends by a walk.
#![tactic(auto)]

ghost use Rattle.std.specs.Prelude.{◌≤◌, length};
ghost use Rattle.words.specs.Words.{most_letters};
ghost use Rattle.theory.specs.Orders.Decisions.{Decides};
ghost use Rattle.judging.specs.Judging.{Turn};
ghost use Rattle.matching.specs.Matching.{PartFits, PairsDecided, StrictDecided};

use parsing::{Items, Pairs};
use strict::Factors;

// Whether a part stands up to the judge beside the next one, and has as many strict pieces as its pair says.
fn part_fits(word: &[u8], first: usize, end: usize, next: usize, count: u16) -> bool
    requires { Turn word.now first end next }
    ensures { Decides (PartFits word.now first end next count) result }
{
    if judging::judge_turn(word, first, end, next).is_some() {
        return false;
    }
    pairs::count_inside(&word[first..end]) == usize::from(count)
}

/// Whether the pairs that stand in a text are the record's own.
pub fn pairs_are(word: &[u8], mut pairs: Pairs) -> bool
    requires { length word.now ≤ most_letters }
    ensures { PairsDecided word.now pairs.entry.items.text.now pairs.entry.items.next result }
{
    let Some(mut pair) = pairs.next() else {
        return false;
    };
    if pair.end == 0 {
        return false;
    }
    if word.len() < pair.end {
        return false;
    }
    let mut first: usize = 0;
    for next in pairs {
        if next.end <= pair.end {
            return false;
        }
        if word.len() < next.end {
            return false;
        }
        if !part_fits(word, first, pair.end, next.end, pair.count) {
            return false;
        }
        first = pair.end;
        pair = next;
    }
    if pair.end != word.len() {
        return false;
    }
    part_fits(word, first, pair.end, pair.end, pair.count)
}

/// Whether the strict ends that stand in a text are the record's own: each beside the end of the next factor of a walk.
pub fn strict_are(word: &[u8], ends: Items) -> bool
    requires { length word.now ≤ most_letters }
    ensures { StrictDecided word.now ends.entry.text.now ends.entry.next result }
{
    let mut factors = Factors::of(word);
    for end in ends {
        if factors.next() != Some(usize::from(end)) {
            return false;
        }
    }
    factors.next().is_none()
}
