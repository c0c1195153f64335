//! What request 107 says of single records: their maximal repetitions, each as first place, end and period.
use super::printing::{Groups, Refused};
use access::front;
use std::io;

// The repetitions, with so many entries lent for them as `list` has.
fn print_runs(out: &impl Print, name: &str, word: &[u8], list: &mut [u16]) -> io::Result<()> {
    match runs::runs(word, list) {
        Ok(count) => {
            let entries = front(list, count.saturating_mul(3));
            println!(out; "{name}: runs={}", Groups { size: 3, entries })
        }
        Err(refusal) => println!(out; "{name}: {}", Refused(refusal)),
    }
}

/// The request's record, with as many entries lent as it needs, and with one fewer; a Fibonacci word; equal letters;
/// marks; a record with none, and an empty one, lent no entry.
pub fn print_repetitions(out: &impl Print) -> io::Result<()> {
    let mut twelve = [0u16; 12];
    let mut eleven = [0u16; 11];
    let mut list = [0u16; 21];
    let mut none = [0u16; 0];
    print_runs(out, "aabaabaa with 12 entries", b"aabaabaa", &mut twelve)?;
    print_runs(out, "aabaabaa with 11 entries", b"aabaabaa", &mut eleven)?;
    print_runs(out, "abaababaabaab", b"abaababaabaab", &mut list)?;
    print_runs(out, "a^7", b"aaaaaaa", &mut list)?;
    print_runs(
        out,
        "aa, two marks, abab, a mark, b",
        b"aa\xff\xffabab\xffb",
        &mut list,
    )?;
    print_runs(out, "abacaba with no entry", b"abacaba", &mut none)?;
    print_runs(out, "No letter, no entry", b"", &mut none)
}
