//! Records of a shape.
use super::run::Run;
use access::entry;

/// What the letters of a record are.
#[derive(Clone, Copy)]
pub enum Shape {
    /// At random over so many letters.
    Random { letters: usize },
    /// At random over so many letters for one period, and then repeated.
    Periodic { letters: usize, period: usize },
    /// In about one place of four a letter at random, elsewhere the one before it.
    Plateaus { letters: usize },
    /// Rising: the next letter after every `width` + 1 places.
    Rising { width: usize },
    /// Falling in the same way, from the greatest letter that is no mark.
    Falling { width: usize },
    /// c^k a c^k b.
    Powers,
    /// Paper 01's record I, which is cut with a join, and a mark, again and again.
    Joins,
}

/// The letter of a number, by its remainder modulo 256.
pub fn letter(number: usize) -> u8 {
    (number % 256) as u8
}

/// Writes the word of a number in the list of all words over a, b, .. by length: 1 is a, and the digits are those of
/// the bijective numeration. Answers its length.
pub fn spell(word: &mut [u8], letters: usize, number: usize) -> usize {
    let mut rest = number;
    for (i, place) in word.iter_mut().enumerate() {
        if rest == 0 || letters == 0 {
            return i;
        }
        *place = letter((rest - 1) % letters).wrapping_add(b'a');
        rest = (rest - 1) / letters;
    }
    word.len()
}

// Letter i of n of c^k a c^k b.
fn letter_of_powers(n: usize, i: usize) -> usize {
    if i == n.saturating_sub(1) {
        return 98;
    }
    if i == n.saturating_sub(2) / 2 { 97 } else { 99 }
}

// The next letter of n, after these.
fn next_letter(before: &[u8], n: usize, shape: Shape, run: &mut Run) -> usize {
    let i = before.len();
    match shape {
        Shape::Random { letters } => run.draw(letters),
        Shape::Periodic { letters, period } => {
            let new = run.draw(letters);
            if i < period || period == 0 {
                new
            } else {
                entry(before, i - period)
            }
        }
        Shape::Plateaus { letters } => {
            let new = run.draw(letters);
            if run.draw(4) == 0 {
                new
            } else {
                entry(before, i.saturating_sub(1))
            }
        }
        Shape::Rising { width } => i / (width % 256 + 1),
        Shape::Falling { width } => 254usize.saturating_sub(i / (width % 256 + 1)),
        Shape::Powers => letter_of_powers(n, i),
        Shape::Joins => entry(b"cbabacaacbabacbac\xff", i % 18),
    }
}

/// Writes a record of a shape.
pub fn write(word: &mut [u8], shape: Shape, run: &mut Run) {
    let n = word.len();
    // By index: a letter may be one of those before it, which iter_mut does not lend.
    for i in 0..n {
        let next = next_letter(&word[..i], n, shape, run);
        word[i] = letter(next);
    }
}
