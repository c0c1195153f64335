//! What paper 01 and request 108 say of lists for record H: the parts that the reader gives by each number from 0 to 3,
//! and the summary's count, longest and from.
use super::printing::{Numbers, Refused};
use std::io;

// The part of a number.
fn print_part(out: &impl Print, word: &[u8], pairs: &[u16], number: usize) -> io::Result<()> {
    print!(out; "(")?;
    match reading::factor_at(word, pairs, number) {
        Ok(part) => out.write_all(part)?,
        Err(refusal) => print!(out; "{}", Refused(refusal))?,
    }
    print!(out; ")")
}

// All that is said of a list.
fn print_parts(out: &impl Print, name: &str, pairs: &[u16]) -> io::Result<()> {
    let word = b"cbabacbac";
    print!(out; "H by {name}: ")?;
    for number in 0..4 {
        print_part(out, word, pairs, number)?;
    }
    match summary::summarize(word, pairs) {
        Ok(found) => {
            let numbers = [found.count, found.longest, found.from];
            println!(out; " summary={}", Numbers(&numbers))
        }
        Err(refusal) => println!(out; " summary={}", Refused(refusal)),
    }
}

/// The piece cut's pairs, counts that are the parts' lengths, and other parts; then lists that are refused: a count
/// above its part's length, a count of 0, one entry too few or too many, ends without counts, and no entry.
pub fn print_lists(out: &impl Print) -> io::Result<()> {
    print_parts(out, "5:1,9:2", &[5, 1, 9, 2])?;
    print_parts(out, "5:5,9:4", &[5, 5, 9, 4])?;
    print_parts(out, "3:1,6:1,9:1", &[3, 1, 6, 1, 9, 1])?;
    print_parts(out, "5:6,9:4", &[5, 6, 9, 4])?;
    print_parts(out, "5:5,9:5", &[5, 5, 9, 5])?;
    print_parts(out, "5:0,9:1", &[5, 0, 9, 1])?;
    print_parts(out, "5:1,9:0", &[5, 1, 9, 0])?;
    print_parts(out, "5:1,9", &[5, 1, 9])?;
    print_parts(out, "5:1,9:2,9", &[5, 1, 9, 2, 9])?;
    print_parts(out, "9", &[9])?;
    print_parts(out, "5:9", &[5, 9])?;
    print_parts(out, "no entry", &[0u16; 0])
}
