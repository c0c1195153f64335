//! What request 105 says of cards: the pieces of each record within it, or its refusal, and how many places hold a
//! result of 0.
use super::printing::{Refused, pieces_of};
use access::tail;
use batch::{Answers, MOST_RECORDS};
use checks::MOST;
use std::io;

// All answers, nothing for a result of 0, the pairs of each behind those before. Gives how many are a result of 0.
fn print_answers(out: &impl Print, answers: &Answers, pairs: &[u16]) -> io::Result<usize> {
    let mut rest = pairs;
    let mut zeros: usize = 0;
    for answer in answers {
        if *answer == Ok(0) {
            zeros = zeros.saturating_add(1);
        } else {
            print!(out; "({})", pieces_of(*answer, rest))?;
            rest = tail(rest, answer.unwrap_or(0).saturating_mul(2));
        }
    }
    Ok(zeros)
}

// A card, with so many entries lent for the pieces as `pairs` has; a refused one counts as 0 in every place.
fn print_batch(
    out: &impl Print,
    name: &str,
    bytes: &[u8],
    record_ends: &[u32],
    pairs: &mut [u16],
) -> io::Result<()> {
    let mut work = [0u16; 3 * MOST];
    print!(out; "{name}: ")?;
    let zeros = match batch::icfl_batch(bytes, record_ends, &mut work, pairs) {
        Ok(answers) => print_answers(out, &answers, pairs)?,
        Err(refusal) => {
            print!(out; "{}", Refused(refusal))?;
            MOST_RECORDS
        }
    };
    println!(out; " zeros={zeros}")
}

/// The records A to K on one card, with as many entries as they need, and with one fewer; an empty record, and one with
/// too little left before a shorter one that fits; no bytes; and lists that are refused: falling, one that ends far
/// after the bytes, and 65 ends.
pub fn print_batches(out: &impl Print) -> io::Result<()> {
    let papers = b"aaaaabbaabcbababbabbabbbcbabacbaccbabacaacbabacbacdabadabdabdadacdabdadacddbdc";
    let papers_ends = [1u32, 4, 6, 8, 11, 15, 24, 33, 50, 65, 78];
    let mut enough = [0u16; 42];
    let mut fewer = [0u16; 41];
    let mut six = [0u16; 6];
    print_batch(
        out,
        "A to K with 42 entries",
        papers,
        &papers_ends,
        &mut enough,
    )?;
    print_batch(
        out,
        "A to K with 41 entries",
        papers,
        &papers_ends,
        &mut fewer,
    )?;
    print_batch(
        out,
        "H, nothing, E, D with 6 entries",
        b"cbabacbacabcba",
        &[9, 9, 12, 14],
        &mut six,
    )?;
    print_batch(out, "No bytes, one end", b"", &[0], &mut six)?;
    print_batch(out, "H, ends 5, 4, 9", b"cbabacbac", &[5, 4, 9], &mut six)?;
    print_batch(out, "H, end 65545", b"cbabacbac", &[65545], &mut six)?;
    print_batch(out, "65 ends", b"ba", &[2u32; 65], &mut six)
}
