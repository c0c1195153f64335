//! Lists of numbers, in a room of fixed size.
ghost use Rattle.std.specs.Prelude.{◌≡◌, ◌+◌, ◌<◌, ◌≤◌, length};

use super::entries::front;

/// Room for the list of the longest record that is tried, 4,097 letters, and for some entries more.
pub const ENTRIES: usize = 4110;

/// Room for its pairs, two entries each.
pub const PAIR_ENTRIES: usize = 2 * ENTRIES;

/// Room for the breaks of such a record, five entries each: no list is longer.
pub const BREAK_ENTRIES: usize = 5 * ENTRIES;

/// A number as an entry, 65,535 for a greater one.
pub fn limited(number: usize) -> u16 {
    u16::try_from(number).unwrap_or(u16::MAX)
}

/// A list of at most N numbers. There is no heap here, so it is a buffer with a count and no Vec; it is set to 0 and copied
/// whole, so its room is a parameter.
#[derive(Drop)]
pub struct List<const N: usize> {
    entries: [u16; N],
    count: usize,
}

/// A list with an entry for each letter.
pub type Ends = List<ENTRIES>;

/// A list with two.
pub type Pairs = List<PAIR_ENTRIES>;

/// A list of breaks.
pub type Breaks = List<BREAK_ENTRIES>;

impl<const N: usize> List<N> {
    /// The empty list.
    pub fn new() -> List<N>
        ensures { result.count ≡ 0 }
    {
        List {
            entries: [0; N],
            count: 0,
        }
    }

    /// Adds an entry, 65,535 for a greater number; nothing where there is no room.
    pub fn push(&mut self, value: usize)
        ensures { self.old.count < N → self.new.count ≡ self.old.count + 1 }
    {
        if self.count < N {
            self.entries[self.count] = limited(value);
            self.count += 1;
        }
    }

    /// Adds entries, one after the other.
    pub fn extend(&mut self, values: &[usize])
        ensures { self.old.count + length values.now ≤ N → self.new.count ≡ self.old.count + length values.now }
    {
        for value in values {
            self.push(*value);
        }
    }

    /// Changes the entry at a place; past the end nothing.
    pub fn set(&mut self, at: usize, value: usize)
        ensures { self.new.count ≡ self.old.count }
    {
        if at < self.count && at < N {
            self.entries[at] = limited(value);
        }
    }

    /// Takes the last entry away.
    pub fn pop(&mut self) {
        self.count = self.count.saturating_sub(1);
    }

    /// The entries.
    pub fn as_slice(&self) -> &[u16]
        ensures { self.now.count ≤ N → length result.now ≡ self.now.count }
    {
        front(&self.entries, self.count)
    }

    /// Turns the entries about, the last one first.
    pub fn reverse(&mut self) {
        let count = self.count.min(N);
        self.entries[..count].reverse();
    }
}
