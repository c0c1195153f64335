//! The reader and the summary.
use access::{part, part_end, part_start};
use samples::{about, small_paired_list};
use summary::Summary;

/// Whether the reader gives the part, or the refusal.
pub fn part_agrees(word: &[u8], pairs: &[u16], number: usize) -> bool {
    let refused = naive::part_refusal(word.len(), pairs, number);
    match reading::factor_at(word, pairs, number) {
        Err(refusal) => refused == Some(u8::from(refusal)),
        Ok(found) => {
            let want = part(word, part_start(pairs, number), part_end(pairs, number));
            refused.is_none() && found == want
        }
    }
}

// Whether the counts of a summary are those of the parts.
fn are_bands(bands: &[u16; 13], pairs: &[u16]) -> bool {
    let mut bands_and_digits = bands.iter().zip(1..=13);
    bands_and_digits.all(|(band, digits)| usize::from(*band) == access::in_band(pairs, digits))
}

// Whether the numbers of a summary are those of the parts.
fn is_summary(summary: Summary, pairs: &[u16]) -> bool {
    let longest = access::longest(pairs);
    let from = access::latest(pairs, longest).unwrap_or(0);
    let bands = summary.bands;
    usize::from(summary.count) == pairs.len() / 2
        && usize::from(summary.longest) == longest
        && usize::from(summary.from) == from
        && are_bands(&bands, pairs)
}

/// Whether the summary is that of the parts, or the refusal.
pub fn summary_agrees(word: &[u8], pairs: &[u16]) -> bool {
    let refused = naive::summary_refusal(word.len(), pairs);
    match summary::summarize(word, pairs) {
        Err(refusal) => refused == Some(u8::from(refusal)),
        Ok(summary) => refused.is_none() && is_summary(summary, pairs),
    }
}

/// The reader on list `code` / 5 of those with faults, at one of five numbers about the number of its pairs.
pub fn part_agrees_at_limits(word: &[u8], code: usize) -> bool {
    let list = small_paired_list(word.len(), code / 5);
    let pairs = list.as_slice();
    part_agrees(word, pairs, about(0, pairs.len() / 2)[code % 5 + 1])
}

/// The summary of list `code`.
pub fn summary_agrees_at_limits(word: &[u8], code: usize) -> bool {
    let pairs = small_paired_list(word.len(), code);
    summary_agrees(word, pairs.as_slice())
}
