//! The refusals of every call that takes one record.
use super::printing::Numbers;
use checks::{MOST, Refusal};
use compare::Starts;
use std::io;

// The refusal's number as the lines have it, 0 for a result.
fn number<T: Drop>(answer: Result<T, Refusal>) -> u16 {
    match answer {
        Ok(_) => 0,
        Err(refusal) => u16::from(u8::from(refusal)),
    }
}

// Those of the calls that are lent buffers: the test, the piece cut alone and with its breaks (lent no entry for
// these), the strict cut, the start table, the repetitions.
fn lent_numbers(word: &[u8]) -> [u16; 6] {
    let mut work = [0u16; 3 * MOST];
    let mut list = [0u16; MOST];
    [
        number(extension::find_extension(word, &mut work)),
        number(icfl::icfl(word, &mut work, &mut list)),
        number(icfl_breaks::icfl_with_breaks(word, &mut work, &mut list, &mut [])),
        number(cfl::cfl_in(word, &mut list)),
        number(table::lyndon_table(word, &mut list)),
        number(runs::runs(word, &mut list)),
    ]
}

// Those of comparison, reader and summary.
fn other_numbers(word: &[u8], pairs: &[u16]) -> [u16; 3] {
    let whole = Starts {
        first: 0,
        end: word.len(),
        start: 0,
        other: 0,
    };
    [
        number(compare::compare_suffixes(word, whole)),
        number(reading::factor_at(word, pairs, 0)),
        number(summary::summarize(word, pairs)),
    ]
}

/// The refusal's number of every call, 0 for a result.
pub fn print_refusals(out: &impl Print, name: &str, word: &[u8], pairs: &[u16]) -> io::Result<()> {
    let lent = lent_numbers(word);
    let others = other_numbers(word, pairs);
    println!(out; "{name}: {},{}", Numbers(&lent), Numbers(&others))
}
