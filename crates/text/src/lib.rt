//! Text in a lent buffer, written from a place on.
#![tactic(auto)]

ghost use Rattle.std.specs.Prelude.{◌≡◌, length, [], ◌∷◌};
ghost use Rattle.text.specs.Text.{decimal, list_by, comma_list, pair_list, line};
ghost use Rattle.text.specs.Writing.{Fits, Wrote};

/// The bytes between the numbers of a list, in turn: the first of them after the first number, the second after the
/// next, and so on.
#[derive(Clone, Copy)]
pub struct Separators {
    pub first: u8,
    pub second: u8,
}

impl Separators {
    /// The same from the next number on.
    pub fn swapped(self) -> Separators
        ensures { result ≡ record { first = self.second; second = self.first } }
    {
        Separators {
            first: self.second,
            second: self.first,
        }
    }
}

// How many decimal digits a number has.
fn digit_count(number: u16) -> usize
    ensures { result ≡ length (decimal number) }
{
    let power = number.checked_ilog10().unwrap_or(0);
    power as usize + 1
}

/// A lent buffer and the entry from which on it is written next.
#[derive(Drop)]
pub struct Page<'a> {
    pub out: &'a mut [u8],
    pub at: usize,
}

impl<'a> Page<'a> {
    // The bytes as they are.
    fn write_bytes(&mut self, bytes: &[u8])
        requires { Fits bytes.now self.old }
        ensures { Wrote bytes.now self.old self.new }
    {
        let end = self.at + bytes.len();
        self.out[self.at..end].copy_from_slice(bytes);
        self.at = end;
    }

    // One byte.
    fn write_byte(&mut self, byte: u8)
        requires { Fits (byte ∷ []) self.old }
        ensures { Wrote (byte ∷ []) self.old self.new }
    {
        self.out[self.at] = byte;
        self.at += 1;
    }

    // The number in decimal, from its last digit to its first.
    fn write_decimal(&mut self, number: u16)
        requires { Fits (decimal number) self.old }
        ensures { Wrote (decimal number) self.old self.new }
    {
        let end = self.at + digit_count(number);
        let mut rest = number;
        for place in (self.at..end).rev() {
            self.out[place] = b'0' + (rest % 10) as u8;
            rest /= 10;
        }
        self.at = end;
    }

    // The numbers in decimal, with the separators between them.
    fn write_list(&mut self, numbers: &[u16], separators: Separators)
        requires { Fits (list_by (separators.first ∷ []) (separators.second ∷ []) numbers.now) self.old }
        ensures { Wrote (list_by (separators.first ∷ []) (separators.second ∷ []) numbers.now) self.old self.new }
    {
        let Some((first, others)) = numbers.split_first() else {
            return;
        };
        self.write_decimal(*first);
        let mut between = separators;
        for number in others {
            self.write_byte(between.first);
            self.write_decimal(*number);
            between = between.swapped();
        }
    }

    // The line `key=` with such a list, ended by byte 10.
    fn write_line(&mut self, key: &[u8], numbers: &[u16], separators: Separators)
        requires { Fits (line key.now (list_by (separators.first ∷ []) (separators.second ∷ []) numbers.now)) self.old }
        ensures { Wrote (line key.now (list_by (separators.first ∷ []) (separators.second ∷ []) numbers.now)) self.old self.new }
    {
        self.write_bytes(key);
        self.write_byte(b'=');
        self.write_list(numbers, separators);
        self.write_byte(b'\n');
    }

    /// The line `key=` with the numbers in decimal, commas between them, ended by byte 10. It must fit into the page.
    pub fn write_list_line(&mut self, key: &[u8], numbers: &[u16])
        requires { Fits (line key.now (comma_list numbers.now)) self.old }
        ensures { Wrote (line key.now (comma_list numbers.now)) self.old self.new }
    {
        let separators = Separators {
            first: b',',
            second: b',',
        };
        self.write_line(key, numbers, separators);
    }

    /// The same of pairs, a colon in each and commas between them.
    pub fn write_pairs_line(&mut self, key: &[u8], pairs: &[u16])
        requires { Fits (line key.now (pair_list pairs.now)) self.old }
        ensures { Wrote (line key.now (pair_list pairs.now)) self.old self.new }
    {
        let separators = Separators {
            first: b':',
            second: b',',
        };
        self.write_line(key, pairs, separators);
    }

    /// The line `key=` with the number in decimal, ended by byte 10. It must fit into the page.
    pub fn write_number_line(&mut self, key: &[u8], number: u16)
        requires { Fits (line key.now (decimal number)) self.old }
        ensures { Wrote (line key.now (decimal number)) self.old self.new }
    {
        self.write_list_line(key, &[number]);
    }
}
