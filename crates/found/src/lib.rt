//! The run that a place serves: the period is 1 after the same letter, else the length of the longest Lyndon word
//! there. How far it repeats to the left and to the right decides.
#![tactic(auto)]

ghost use Rattle.std.specs.Prelude.{◌≡◌, ◌<◌, length};
ghost use Rattle.theory.specs.Orders.Decisions.{Decides};
ghost use Rattle.theory.specs.Repetitions.Found.{left_of, Counts, found_period, found_at};
ghost use Rattle.common.specs.Orders.{most_byte};
ghost use Rattle.found.specs.Found.{found_runs, LeftAsked, PlaceKnown};

use inserting::Run;

// The period to be tried at a place.
fn period_at(word: &[u8], longest: &[u16], i: usize) -> usize
    requires { PlaceKnown word.now longest.now i }
    ensures { result ≡ found_period most_byte word.now i }
{
    if word[i - 1] == word[i] {
        return 1;
    }
    longest[i] as usize
}

// How many letters before i are equal to those a period later, counted from i on to the left, and no more than one
// above the period.
fn left_of(word: &[u8], i: usize, period: usize) -> usize
    requires { LeftAsked word.now i period }
    ensures { result ≡ left_of word.now i period }
{
    let most = i.min(period + 1);
    for l in 0..most {
        let t = i - l - 1;
        if word[t] != word[t + period] {
            return l;
        }
    }
    most
}

// Whether a run that place i serves is listed by it. One whose word is of the natural order has to end before the
// stretch does: else its word of the inverse order serves it.
fn stands_for(word: &[u8], i: usize, end: usize) -> bool
    requires { (0 < i) × (i < length word.now) }
    ensures { Decides (Counts word.now i end) result }
{
    (word[i - 1] <= word[i]) | (end < word.len())
}

/// The run that the place i serves, if there is one, with the first place of the word as 0.
pub fn run_at(word: &[u8], longest: &[u16], i: usize) -> Option<Run>
    requires { PlaceKnown word.now longest.now i }
    ensures { found_runs result ≡ found_at most_byte word.now i }
{
    let period = period_at(word, longest, i);
    let left = left_of(word, i, period);
    if left == 0 {
        return None;
    }
    if period < left {
        return None;
    }
    let right = common::common_length(&word[i..], &word[i + period..]);
    if left + right < period {
        return None;
    }
    let end = i + period + right;
    if !stands_for(word, i, end) {
        return None;
    }
    Some(Run {
        first: i - left,
        end,
        period,
    })
}
