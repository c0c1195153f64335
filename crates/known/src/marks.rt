//! What request 103 says of records with marks, bytes 255: both cuts and the start table, the breaks, and the test,
//! which refuses them.
use super::printing::{Numbers, Refused, numbers_of, pieces_of};
use super::reasons::print_reasons;
use std::io;

// The pieces, the strict ends and the start table of a record of up to six letters.
fn print_cuts(out: &impl Print, name: &str, word: &[u8]) -> io::Result<()> {
    let mut work = [0u16; 18];
    let mut list = [0u16; 12];
    let answer = icfl::icfl(word, &mut work, &mut list);
    print!(out; "{name}: pieces={}", pieces_of(answer, &list))?;
    let answer = cfl::cfl_in(word, &mut list);
    print!(out; " strict={}", numbers_of(answer, &list))?;
    let answer = table::lyndon_table(word, &mut list);
    println!(out; " starts={}", numbers_of(answer, &list))
}

// The refusal of a test, and what it leaves in the work buffer.
fn print_test(out: &impl Print, name: &str, word: &[u8], work: &mut [u16]) -> io::Result<()> {
    print!(out; "{name}: ")?;
    if let Err(refusal) = extension::find_extension(word, work) {
        print!(out; "{}", Refused(refusal))?;
    }
    println!(out; " work={}", Numbers(work))
}

/// Marks at the front, between, at the end and in a row; two of record I with a mark between them; the test with work
/// entries enough, and with one too few.
pub fn print_marks(out: &impl Print) -> io::Result<()> {
    print_cuts(out, "Two marks, a", b"\xff\xffa")?;
    print_cuts(out, "ba, a mark, ba", b"ba\xffba")?;
    print_cuts(out, "a, a mark, ab, two marks", b"a\xffab\xff\xff")?;
    print_cuts(out, "Three marks", b"\xff\xff\xff")?;
    let twice = b"cbabacaacbabacbac\xffcbabacaacbabacbac";
    let mut pairs = [0u16; 10];
    let mut breaks = [0u16; 20];
    print_reasons(out, "I, a mark, I", twice, &mut pairs, &mut breaks)?;
    let mut five = [7u16; 5];
    let mut four = [7u16; 4];
    print_test(out, "Test of ba, a mark, ba", b"ba\xffba", &mut five)?;
    print_test(out, "The same with 4 entries", b"ba\xffba", &mut four)
}
