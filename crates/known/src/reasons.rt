//! What request 102 says of single records: the piece cut with its breaks.
use super::printing::{Groups, Pairs, Refused};
use access::front;
use checks::MOST;
use icfl_breaks::Counts;
use std::io;

/// The pieces and the breaks, with so many entries lent for them as `pairs` and `list` have.
pub fn print_reasons(
    out: &impl Print,
    name: &str,
    word: &[u8],
    pairs: &mut [u16],
    list: &mut [u16],
) -> io::Result<()> {
    let mut work = [0u16; 3 * MOST];
    match icfl_breaks::icfl_with_breaks(word, &mut work, pairs, list) {
        Ok(Counts { factors, breaks }) => {
            let pieces = Pairs(front(pairs, factors.saturating_mul(2)));
            let entries = front(list, breaks.saturating_mul(5));
            let breaks = Groups { size: 5, entries };
            println!(out; "{name}: pieces={pieces} breaks={breaks}")
        }
        Err(refusal) => println!(out; "{name}: {}", Refused(refusal)),
    }
}

/// The breaks of a shortest record that joins with nothing to spare, of one with a join inside another, and of a
/// falling one.
pub fn print_joins(out: &impl Print) -> io::Result<()> {
    let mut four = [0u16; 4];
    let mut list = [0u16; 15];
    let mut none = [0u16; 0];
    let twice = b"cbabacaacbabaacbabacaacbabacbac";
    print_reasons(out, "baababb", b"baababb", &mut four, &mut list)?;
    print_reasons(out, "Joined twice", twice, &mut four, &mut list)?;
    print_reasons(
        out,
        "F with no entry for breaks",
        b"baba",
        &mut four,
        &mut none,
    )
}

/// The breaks of I, with as many entries lent as it needs, and with one fewer for the pieces or for the breaks.
pub fn print_room_for_breaks(out: &impl Print) -> io::Result<()> {
    let word = b"cbabacaacbabacbac";
    let mut four = [0u16; 4];
    let mut three = [0u16; 3];
    let mut ten = [0u16; 10];
    let mut nine = [0u16; 9];
    print_reasons(out, "I with 4 and 10 entries", word, &mut four, &mut ten)?;
    print_reasons(out, "I with 3 and 10 entries", word, &mut three, &mut ten)?;
    print_reasons(out, "I with 4 and 9 entries", word, &mut four, &mut nine)
}
