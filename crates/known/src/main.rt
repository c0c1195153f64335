//! Prints what paper 01 and the requests say of single records, as the calls answer it. The numbers that must come are
//! the papers', and stand in `stdout`; the file `args` has the records A to K.
#![tactic(auto)]

mod batches; // cards of records
mod comparisons; // two starts: the sign, and how far they agree
mod lists; // lists for the reader and the summary
mod marks; // records with marks
mod printing; // lists of numbers and of pairs, refusals and answers
mod reasons; // the piece cut with its breaks
mod refusals; // the refusals of every call
mod repetitions; // the maximal repetitions

use batches::print_batches;
use checks::MOST;
use comparisons::print_comparisons;
use lists::print_lists;
use marks::print_marks;
use printing::{numbers_of, pieces_of};
use reasons::{print_joins, print_room_for_breaks};
use refusals::print_refusals;
use repetitions::print_repetitions;
use std::env::{Env, FillError};
use std::io;

// The pieces, with so many entries lent for them as `pairs` has.
fn print_cut(out: &impl Print, name: &str, word: &[u8], pairs: &mut [u16]) -> io::Result<()> {
    let mut work = [0u16; 3 * MOST];
    let answer = icfl::icfl(word, &mut work, pairs);
    print!(out; "{name} pieces={}", pieces_of(answer, pairs))
}

// A record that is an argument of the program, with its pieces and its strict ends.
fn print_cuts(out: &impl Print, word: &[u8]) -> io::Result<()> {
    let mut list = [0u16; 2 * MOST];
    out.write_all(word)?;
    print_cut(out, "", word, &mut list)?;
    let answer = cfl::cfl_in(word, &mut list);
    println!(out; " strict={}", numbers_of(answer, &list))
}

// The records A to K; an argument that is too long is taken for an empty one.
fn print_table(rt: &(impl Print + Env)) -> io::Result<()> {
    let mut text = [0u8; 4096];
    for argument in 1..usize::MAX {
        match rt.arg(argument, &mut text) {
            Ok(length) => print_cuts(rt, &text[..length])?,
            Err(FillError::TooLong) => print_cuts(rt, b"")?,
            Err(FillError::NotPresent) => break,
        }
    }
    Ok(())
}

// L, |p| and |r|; nothing where the test does not give them.
fn print_test(out: &impl Print, name: &str, word: &[u8]) -> io::Result<()> {
    let mut work = [0u16; MOST];
    match extension::find_extension(word, &mut work) {
        Ok(Some(found)) => println!(out;
            "{name} test={},{},{}",
            found.failing, found.prefix, found.border
        ),
        _ => println!(out; "{name} test="),
    }
}

// The start table of H.
fn print_starts(out: &impl Print) -> io::Result<()> {
    let mut lengths = [0u16; 9];
    let answer = table::lyndon_table(b"cbabacbac", &mut lengths);
    println!(out; "H starts={}", numbers_of(answer, &lengths))
}

// The pieces of H, with as many entries lent as it needs, two for each piece, and with one fewer.
fn print_room(out: &impl Print) -> io::Result<()> {
    let mut four = [0u16; 4];
    let mut three = [0u16; 3];
    print_cut(out, "H with 4 entries", b"cbabacbac", &mut four)?;
    println!(out)?;
    print_cut(out, "H with 3 entries", b"cbabacbac", &mut three)?;
    println!(out)
}

// The table, what is said of H and I and of ranges, breaks, marks, cards, repetitions and lists, and the refusals of a
// record with a mark, at the greatest length and one above it.
fn main(rt: HostRuntime) -> io::Result<()> {
    let out = &rt;
    print_table(out)?;
    print_starts(out)?;
    print_test(out, "H", b"cbabacbac")?;
    print_test(out, "I", b"cbabacaacbabacbac")?;
    print_room(out)?;
    print_comparisons(out)?;
    print_joins(out)?;
    print_room_for_breaks(out)?;
    print_marks(out)?;
    print_batches(out)?;
    print_repetitions(out)?;
    print_lists(out)?;
    print_refusals(out, "ba, a mark", b"ba\xff", &[3, 1])?;
    let word = [97u8; MOST + 1];
    print_refusals(out, "4096 letters", &word[..MOST], &[4096, 1])?;
    print_refusals(out, "4097 letters", &word, &[4097, 1])
}
