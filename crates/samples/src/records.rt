//! The records on which the calls are compared. Each function writes one to the front of a room and answers its length.
use super::marks::{MARKS, Marks, put_marks, random_marks};
use super::run::Run;
use super::shapes::{Shape, letter, spell, write};

/// The word of a number in the list of all words, as `spell` has it, with a mark as the last of so many letters.
pub fn spell_with_marks(room: &mut [u8], letters: usize, number: usize, run: &mut Run) -> usize {
    let n = spell(room, letters, number);
    let last = letters.saturating_add(96);
    put_marks(front_mut(room, n), Marks::For { letter: last }, run);
    n
}

// The first n letters, all where there are fewer.
fn front_mut(room: &mut [u8], n: usize) -> &mut [u8] {
    let end = n.min(room.len());
    &mut room[..end]
}

// 2 letters, 3, 4, or at random up to 256.
fn alphabet(run: &mut Run) -> usize {
    match run.draw(5) {
        0 => 2,
        1 => 3,
        2 => 4,
        3 => 256,
        _ => 2 + run.draw(255),
    }
}

// Periodic with a short period or one of about half the length, plateaus, a ramp, joins, or letters at random; and
// whether one letter is replaced, as in some of the periodic ones.
fn random_shape(n: usize, letters: usize, run: &mut Run) -> (Shape, bool) {
    let kind = run.draw(10);
    let shape = match kind {
        0 | 1 => Shape::Periodic {
            letters,
            period: 1 + run.draw(12),
        },
        2 | 3 => Shape::Periodic {
            letters,
            period: (n / 2).saturating_sub(run.draw(3)),
        },
        4 => Shape::Plateaus { letters },
        5 => Shape::Rising {
            width: run.draw(13),
        },
        6 => Shape::Falling {
            width: run.draw(13),
        },
        7 => Shape::Joins,
        _ => Shape::Random { letters },
    };
    (shape, kind == 1 || kind == 3)
}

/// A pseudo-random record of 1 to `most` letters, with marks or without.
pub fn random_record(room: &mut [u8], most: usize, run: &mut Run) -> usize {
    let n = 1 + run.draw(most);
    let word = front_mut(room, n);
    let letters = alphabet(run);
    let (shape, replaced) = random_shape(n, letters, run);
    write(word, shape, run);
    if replaced {
        let at = run.draw(n);
        let new = run.draw(letters);
        if let Some(place) = word.get_mut(at) {
            *place = letter(new);
        }
    }
    let marks = random_marks(run);
    put_marks(word, marks, run);
    n
}

// Eight shapes, none with a mark: all equal, random over 2 and over 255 letters, rising, falling, c^k a c^k b,
// plateaus, periodic.
const SHAPES: [Shape; 8] = [
    Shape::Random { letters: 1 },
    Shape::Random { letters: 2 },
    Shape::Random { letters: 255 },
    Shape::Rising { width: 16 },
    Shape::Falling { width: 16 },
    Shape::Powers,
    Shape::Plateaus { letters: 3 },
    Shape::Periodic {
        letters: 3,
        period: 100,
    },
];

/// The lengths at the boundaries; the last three are those of long records.
pub const LENGTHS: [usize; 7] = [0, 1, 2, 9, 4095, 4096, 4097];

/// One of sixteen shapes of n letters, by its number: eight without marks, then the same with marks of a kind each.
pub fn shaped_record(room: &mut [u8], n: usize, number: usize, run: &mut Run) -> usize {
    let word = front_mut(room, n);
    let kind = number % 8;
    write(word, SHAPES[kind], run);
    if 8 <= number {
        put_marks(word, MARKS[kind], run);
    }
    n
}
