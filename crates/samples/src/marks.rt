//! Marks, put into a record that is written.
use super::run::Run;
use access::SEPARATOR;

/// Where the marks of a record stand.
#[derive(Clone, Copy)]
pub enum Marks {
    Nowhere,
    Everywhere,
    /// At every second place, from 1 on.
    Alternating,
    /// One, in the middle.
    Middle,
    /// At the first three places.
    Front,
    /// At the last three.
    End,
    /// In the middle third, in a row.
    Row,
    /// At random, at about one place of so many.
    Random { of: usize },
    /// Where this letter stood.
    For { letter: usize },
}

/// Eight kinds of marks.
pub const MARKS: [Marks; 8] = [
    Marks::Everywhere,
    Marks::Alternating,
    Marks::Middle,
    Marks::Front,
    Marks::End,
    Marks::Row,
    Marks::Random { of: 2 },
    Marks::Random { of: 60 },
];

// Whether place i of n, where this letter stands, has a mark.
fn is_marked(letter: u8, n: usize, i: usize, marks: Marks, run: &mut Run) -> bool {
    match marks {
        Marks::Nowhere => false,
        Marks::Everywhere => true,
        Marks::Alternating => i % 2 == 1,
        Marks::Middle => i == n / 2,
        Marks::Front => i < 3,
        Marks::End => n.saturating_sub(i) <= 3,
        Marks::Row => (n / 3..n - n / 3).contains(&i),
        Marks::Random { of } => run.draw(of) == 0,
        Marks::For { letter: replaced } => usize::from(letter) == replaced,
    }
}

/// Puts marks into a record.
pub fn put_marks(word: &mut [u8], marks: Marks, run: &mut Run) {
    let n = word.len();
    for (i, letter) in word.iter_mut().enumerate() {
        if is_marked(*letter, n, i, marks, run) {
            *letter = SEPARATOR;
        }
    }
}

/// In two cases of three none; else of one of the first six kinds, or at random in about one place of two to forty.
pub fn random_marks(run: &mut Run) -> Marks {
    match run.draw(9) {
        0 => MARKS[run.draw(6)],
        1 | 2 => Marks::Random {
            of: 2 + run.draw(39),
        },
        _ => Marks::Nowhere,
    }
}
