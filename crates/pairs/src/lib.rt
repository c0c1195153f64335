//! A list of pairs in a buffer (request 108): for each part of a record its end, and beside it the number of
//! anti-Lyndon factors inside. Only this crate knows that a pair is two entries, the end first; calls that read or
//! write such a list go through it. The list is flat because C lends it so.
#![tactic(auto)]

ghost use Rattle.std.specs.Prelude.{◌≡◌, ◌*◌, ◌≤◌, ◌<◌, length, get_or};
ghost use Rattle.buffers.specs.Buffers.{written};
ghost use Rattle.words.specs.Words.{most_letters};
ghost use Rattle.words.specs.Separated.{separated_cfl_in_ends};
ghost use Rattle.words.specs.Pairs.{separated_pairs, ends_of};
ghost use Rattle.pairs.specs.PairedList.{are_faulty_pairs, factor_begin};
ghost use Rattle.pairs.specs.Pairing.{PairsRoom};

/// The entries that so many pairs take.
pub fn entries(count: usize) -> usize
    requires { count ≤ most_letters }
    ensures { result ≡ 2 * count }
{
    2 * count
}

/// The number of pairs in a list.
pub fn count(pairs: &[u16]) -> usize
    ensures { result ≡ length (ends_of pairs.now) }
{
    pairs.len() / 2
}

/// Where a part begins: the end before it, and 0 for the first.
pub fn factor_from(pairs: &[u16], number: usize) -> u16
    requires { number < length (ends_of pairs.now) }
    ensures { result ≡ factor_begin (ends_of pairs.now) number }
{
    if number == 0 {
        return 0;
    }
    factor_end(pairs, number - 1)
}

/// Where a part ends.
pub fn factor_end(pairs: &[u16], number: usize) -> u16
    requires { number < length (ends_of pairs.now) }
    ensures { result ≡ get_or (ends_of pairs.now) number 0 }
{
    pairs[2 * number]
}

/// Whether a list of pairs is empty or has an odd number of entries, its ends do not rise strictly from above 0 to the
/// record's length, or a count is 0 or above its part's length.
pub fn faulty_pairs(pairs: &[u16], letters: usize) -> bool
    ensures { result ≡ are_faulty_pairs pairs.now letters }
{
    if pairs.is_empty() || pairs.len() % 2 == 1 {
        return true;
    }
    let mut last: usize = 0;
    // By index: `chunks_exact` counts down the entries that are left too, a quarter more time.
    for k in 0..pairs.len() / 2 {
        let end = usize::from(pairs[2 * k]);
        let count = usize::from(pairs[2 * k + 1]);
        // With a count above 0 the second test is also that the end is above the last.
        if count == 0 || end < last + count {
            return true;
        }
        last = end;
    }
    last != letters
}

/// The number of anti-Lyndon factors of a factor. A letter alone, as a separator and all of a rising word are, is one
/// without a walk.
pub fn count_inside(factor: &[u8]) -> usize
    requires { length factor.now ≤ most_letters }
    ensures { result ≡ length (separated_cfl_in_ends factor.now) }
{
    if factor.len() == 1 {
        return 1;
    }
    strict::count_factors(factor)
}

/// Writes the pairs of a word, given the ends of its factors, to the front of `pairs`. Every factor ends where an
/// anti-Lyndon one does, so each is counted by itself.
pub fn write_pairs(word: &[u8], ends: &[u16], pairs: &mut [u16])
    requires { PairsRoom word.now ends.now pairs.old }
    ensures { pairs.new ≡ written (separated_pairs word.now) pairs.old }
{
    let mut from: u16 = 0;
    // Written by index: of pieces lent by `chunks_exact_mut` a proof knows no entry afterwards.
    for (i, end) in ends.iter().enumerate() {
        let factor = &word[usize::from(from)..usize::from(*end)];
        pairs[2 * i] = *end;
        pairs[2 * i + 1] = count_inside(factor) as u16;
        from = *end;
    }
}
