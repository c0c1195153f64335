//! What paper 01 and the requests 104 and 106 say of two starts in a range: the sign, and how many leading letters are
//! equal.
use super::printing::Answer;
use compare::{Order, Starts};
use std::cmp::Ordering;
use std::ops::Range;
use std::{fmt, io};

// The sign, and how many letters are equal: a type of its own, to be printed, as Order is another crate's.
#[derive(Clone, Copy)]
struct Compared(Order);

impl fmt::Display for Compared {
    fn fmt<W: fmt::Write>(&self, f: &mut fmt::Formatter<W>) -> fmt::Result {
        let sign = match self.0.sign {
            Ordering::Less => "-1",
            Ordering::Equal => "0",
            Ordering::Greater => "+1",
        };
        write!(f, "sign={sign} common={}", self.0.common)
    }
}

// Both numbers, or the refusal's, for two starts in a range of the places of a record.
fn print_comparison(
    out: &impl Print,
    name: &str,
    word: &[u8],
    range: Range<usize>,
    start: usize,
    other: usize,
) -> io::Result<()> {
    let Range { start: first, end } = range;
    let starts = Starts {
        first,
        end,
        start,
        other,
    };
    let answer = compare::compare_suffixes(word, starts);
    println!(out;
        "{name} over {first} to {end}, {start} and {other}: {}",
        Answer(answer.map(Compared))
    )
}

// H, equal starts too; G, whose starts agree past the end of its first piece; a range that is not whole pieces.
fn print_letters(out: &impl Print) -> io::Result<()> {
    let g = b"bbabbabbb";
    let h = b"cbabacbac";
    print_comparison(out, "H", h, 0..9, 0, 5)?;
    print_comparison(out, "H", h, 5..9, 5, 8)?;
    print_comparison(out, "H", h, 0..9, 5, 5)?;
    print_comparison(out, "H", h, 0..7, 5, 5)?;
    print_comparison(out, "G", g, 0..6, 0, 3)?;
    print_comparison(out, "G", g, 0..9, 0, 3)?;
    print_comparison(out, "bba", b"bba", 0..2, 0, 1)?;
    print_comparison(out, "bba", b"bba", 0..3, 0, 1)
}

// Differences about the eighth letter, one with another behind it; and ranges behind whose end the starts go on
// agreeing, or differ.
fn print_eights(out: &impl Print) -> io::Result<()> {
    let word = b"bbbbbbbbbabbbbbbbbba";
    print_comparison(out, "(b^9 a)^2", word, 0..20, 0, 3)?;
    print_comparison(out, "(b^9 a)^2", word, 0..20, 0, 2)?;
    print_comparison(out, "(b^9 a)^2", word, 0..20, 0, 1)?;
    print_comparison(out, "(b^9 a)^2", word, 0..20, 5, 3)?;
    print_comparison(out, "(b^9 a)^2", word, 0..17, 0, 10)?;
    print_comparison(out, "(b^9 a)^2", word, 0..9, 0, 1)
}

/// Records of letters, and one with marks, which are the largest letters there.
pub fn print_comparisons(out: &impl Print) -> io::Result<()> {
    print_letters(out)?;
    print_eights(out)?;
    print_comparison(out, "Two marks, a", b"\xff\xffa", 0..2, 0, 1)?;
    print_comparison(out, "Two marks, a", b"\xff\xffa", 0..3, 0, 1)
}
