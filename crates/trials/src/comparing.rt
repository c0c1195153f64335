//! The comparison, and that of two words alone with how far they agree.
use access::{TwoStarts, part, part_end, part_start};
use compare::Starts;
use letters::Order;
use naive::Compared;
use samples::{Run, about};

// An order in the second implementation's form; no From, as neither type is this crate's.
fn compared(found: Order) -> Compared {
    Compared {
        order: found.sign,
        common: found.common,
    }
}

// What the comparison answers, or the number of its refusal.
fn answer(word: &[u8], asked: TwoStarts) -> Result<Compared, u8> {
    let TwoStarts {
        first,
        end,
        start,
        other,
    } = asked;
    let starts = Starts {
        first,
        end,
        start,
        other,
    };
    compare::compare_suffixes(word, starts)
        .map(compared)
        .map_err(u8::from)
}

// Whether an answer is that of the second implementation, letter by letter and by the longest common prefix.
fn is_naive(found: Compared, word: &[u8], asked: TwoStarts) -> bool {
    let x = part(word, asked.start, asked.end);
    let y = part(word, asked.other, asked.end);
    found == naive::compare_letters(x, y) && found == naive::compare_words(x, y)
}

// Whether the two starts changed about have the opposite order and the same number.
fn is_turned(found: Compared, word: &[u8], asked: TwoStarts) -> bool {
    let order = found.order.reverse();
    answer(word, asked.turned()) == Ok(Compared { order, ..found })
}

// Whether the number is the one to the record's end, or what the range has from the later start on, if that is less.
fn is_cut_off(found: Compared, word: &[u8], asked: TwoStarts) -> bool {
    let left = asked.end.saturating_sub(asked.start.max(asked.other));
    let whole = TwoStarts {
        first: 0,
        end: word.len(),
        ..asked
    };
    answer(word, whole).is_ok_and(|whole| found.common == whole.common.min(left))
}

// Whether the comparison answers as the second implementation, and as its other answers make it.
fn comparison_is(word: &[u8], asked: TwoStarts) -> bool {
    let refused = naive::range_refusal(word.len(), asked);
    match answer(word, asked) {
        Err(number) => refused == Some(number),
        Ok(found) => {
            refused.is_none()
                && is_naive(found, word, asked)
                && is_cut_off(found, word, asked)
                && is_turned(found, word, asked)
        }
    }
}

// A range at random of so many: its first and its last.
fn random_range(many: usize, run: &mut Run) -> (usize, usize) {
    let first = run.draw(many);
    let last = first.saturating_add(run.draw(many.saturating_sub(first)));
    (first, last)
}

/// In a range at random, from case 8 on in one of whole parts, with two starts at random.
pub fn agrees(word: &[u8], pairs: &[u16], code: usize, run: &mut Run) -> bool {
    let (first, end) = if code < 8 {
        let (first, last) = random_range(word.len(), run);
        (first, last.saturating_add(1))
    } else {
        let (first, last) = random_range(pairs.len() / 2, run);
        (part_start(pairs, first), part_end(pairs, last))
    };
    let many = end.saturating_sub(first);
    let start = first.saturating_add(run.draw(many));
    let other = first.saturating_add(run.draw(many));
    comparison_is(
        word,
        TwoStarts {
            first,
            end,
            start,
            other,
        },
    )
}

/// How many cases there are at the boundaries of range and starts.
pub const RANGES: usize = 1260;

/// Case `code` of them.
pub fn agrees_at_limits(word: &[u8], code: usize) -> bool {
    let first = about(0, word.len())[code / 252 % 5];
    let end = about(first, word.len())[code / 36 % 7];
    let start = about(first, end)[code / 6 % 6 + 2];
    let other = about(first, end)[code % 6 + 2];
    comparison_is(
        word,
        TwoStarts {
            first,
            end,
            start,
            other,
        },
    )
}

// A part at random that begins at a place.
fn random_part<'a>(word: &'a [u8], from: usize, run: &mut Run) -> &'a [u8] {
    let left = word.len().saturating_sub(from);
    let end = from.saturating_add(run.draw(left.saturating_add(1)));
    part(word, from, end)
}

// Whether two words compare, and agree so far, as by the second implementation.
fn words_are_right(x: &[u8], y: &[u8]) -> bool {
    let want = naive::compare_words(x, y);
    compared(common::compare_words(x, y)) == want && common::common_length(x, y) == want.common
}

/// How many cases there are of two words: 4 of parts at random, and 25 by 25 of short ones.
pub const WORDS: usize = 629;

/// How far two parts at random agree, and how they compare; from case 2 on both begin at one place. From case 4 on they
/// begin at places 0 and 25, and have each pair of lengths up to 24.
pub fn words_agree(word: &[u8], code: usize, run: &mut Run) -> bool {
    if 4 <= code {
        let short = code - 4;
        return words_are_right(part(word, 0, short / 25), part(word, 25, 25 + short % 25));
    }
    let from = run.draw(word.len());
    let x = random_part(word, from, run);
    let other = run.draw(word.len());
    let y = random_part(word, if code < 2 { other } else { from }, run);
    words_are_right(x, y)
}
