//! Numbers and lists of a text, read from a place on. Nothing is kept beside a few numbers, and nothing overflows, whatever the text.
#![tactic(auto)]

ghost use Rattle.std.specs.Iterator.{at_most};
ghost use Rattle.parsing.specs.Parsing.{DigitRead, NumberRead, ListRead, NextPlace, ItemGiven, PairGiven, bytes_left};

use text::Separators;

// The greatest number that is read.
const MOST_NUMBER: u16 = 4096;

/// A number of a text and the place after it.
#[derive(Drop)]
pub struct Number {
    pub value: u16,
    pub end: usize,
}

// The digit that a byte is.
fn digit_of(byte: u8) -> Option<u16>
    ensures { DigitRead byte result }
{
    if byte.is_ascii_digit() {
        Some(u16::from(byte - b'0'))
    } else {
        None
    }
}

/// The number from `at` on: in decimal, without leading zeros, at most 4,096, and not followed by a digit.
pub fn read_number(text: &[u8], at: usize) -> Option<Number>
    ensures { NumberRead text.now at result }
{
    let first = text.get(at)?;
    let mut value = digit_of(*first)?;
    for end in at + 1..text.len() {
        let Some(digit) = digit_of(text[end]) else {
            return Some(Number { value, end });
        };
        if value == 0 {
            return None;
        }
        value = 10 * value + digit;
        if MOST_NUMBER < value {
            return None;
        }
    }
    let end = text.len();
    Some(Number { value, end })
}

/// A list of a text: how many numbers it has, and the place after it.
#[derive(Drop)]
pub struct Span {
    pub count: usize,
    pub end: usize,
}

/// The nonempty list of numbers from `at` on, with the separators between them, as long as they follow.
pub fn read_list(text: &[u8], at: usize, separators: Separators) -> Option<Span>
    ensures { ListRead separators.first separators.second text.now at result }
{
    let mut end = read_number(text, at)?.end;
    let mut between = separators;
    let mut count: usize = 1;
    while end < text.len() {
        if text[end] != between.first {
            return Some(Span { count, end });
        }
        end = read_number(text, end + 1)?.end;
        between = between.swapped();
        count += 1;
    }
    Some(Span { count, end })
}

// Where the next number of a list stands, after one that ends at `end`: none after byte 10 or the text's end.
fn next_place(text: &[u8], end: usize) -> Option<usize>
    ensures { NextPlace text.now end result }
{
    let byte = text.get(end)?;
    if *byte == b'\n' {
        return None;
    }
    Some(end + 1)
}

/// The numbers of a list that was read before, one after another: byte 10 follows the last of them, and any other byte
/// leads to the next.
#[derive(Drop)]
pub struct Items<'a> {
    pub text: &'a [u8],
    /// Where the next number stands.
    pub next: Option<usize>,
}

impl<'a> Iterator for Items<'a> {
    type Item = u16;

    ghost next_gives = { ItemGiven };

    ghost remaining = { λ s. at_most (bytes_left s.text.now s.next) };

    fn next(&mut self) -> Option<u16> {
        let number = read_number(self.text, self.next?)?;
        self.next = next_place(self.text, number.end);
        Some(number.value)
    }
}

/// A pair of a list, `end:count`.
#[derive(Drop)]
pub struct Pair {
    pub end: usize,
    pub count: u16,
}

/// The pairs of a list that was read before: two of its numbers each.
#[derive(Drop)]
pub struct Pairs<'a> {
    pub items: Items<'a>,
}

impl<'a> Iterator for Pairs<'a> {
    type Item = Pair;

    ghost next_gives = { PairGiven };

    ghost remaining = { λ s. at_most (bytes_left s.items.text.now s.items.next) };

    fn next(&mut self) -> Option<Pair> {
        let end = self.items.next()?;
        let count = self.items.next()?;
        Some(Pair {
            end: usize::from(end),
            count,
        })
    }
}
