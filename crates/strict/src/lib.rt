//! The anti-Lyndon factors of a word (paper 01: its strict pieces), stretch by stretch (request 103), one after another
//! by Duval's algorithm on the shared scan.
#![tactic(auto)]

ghost use Rattle.std.specs.Prelude.{◌≡◌, ◌≤◌, ◌<◌, length};
ghost use Rattle.std.specs.Iterator.{YieldsFirst, item_count};
ghost use Rattle.buffers.specs.Buffers.{written};
ghost use Rattle.words.specs.Words.{most_letters};
ghost use Rattle.words.specs.Separated.{separated_cfl_in_ends};
ghost use Rattle.strict.specs.Walk.{RunAt, Repeats};

use scan::Scan;

// A factor that is repeated: its length, and the place before which each of its repetitions begins; 0 before the first
// factor, since no place lies before it.
#[derive(Clone, Copy)]
struct Run {
    length: usize,
    until: usize,
}

// The run at `from`: the one that is known, a separator alone, or that of the longest anti-Lyndon prefix there, from a
// scan. A scan that begins below the separator stops before the next one by itself, since no letter is larger.
fn run_at(word: &[u8], from: usize, known: Run) -> Run
    requires short { length word.now ≤ most_letters }
    requires inside { from < length word.now }
    requires right { Repeats word.now from known }
    ensures begins { from < result.until }
    ensures right { Repeats word.now from result }
    ensures kept { from < known.until → result ≡ known }
    ensures found { known.until ≤ from → RunAt word.now from result }
{
    if from < known.until {
        return known;
    }
    if word[from] == words::SEPARATOR {
        return Run {
            length: 1,
            until: from + 1,
        };
    }
    let s = scan::scan_on(&word[from..], Scan::start());
    Run {
        length: s.length - s.border,
        until: from + s.border + 1,
    }
}

/// An iterator over the ends of a word's anti-Lyndon factors, from first to last: where it stands, and the factor that
/// it found last.
#[derive(Drop)]
pub struct Factors<'a> {
    word: &'a [u8],
    from: usize,
    run: Run,
    ghost short: { length word.now ≤ most_letters },
    ghost inside: { from ≤ length word.now },
    ghost right: { Repeats word.now from run },
}

impl<'a> Factors<'a> {
    ghost use Rattle.strict.specs.Left.{factors_left};

    /// The factors of a record that was accepted, or of a part of one.
    pub fn of(word: &'a [u8]) -> Factors<'a>
        requires { length word.now ≤ most_letters }
        ensures { factors_left result ≡ separated_cfl_in_ends word.now }
    {
        Factors {
            word,
            from: 0,
            run: Run {
                length: 0,
                until: 0,
            },
        }
    }
}

impl<'a> Iterator for Factors<'a> {
    ghost use Rattle.strict.specs.Left.{factors_left};

    type Item = usize;

    ghost next_gives = { YieldsFirst factors_left };

    ghost remaining = { item_count factors_left };

    fn next(&mut self) -> Option<usize> {
        if self.from == self.word.len() {
            return None;
        }
        self.run = run_at(self.word, self.from, self.run);
        self.from += self.run.length;
        Some(self.from)
    }
}

/// The number of factors of a word: of a record that was accepted, or of a part of one, which is lent as it is; a type for
/// its length would be built at each call and taken apart at once. Nothing is stored.
pub fn count_factors(word: &[u8]) -> usize
    requires { length word.now ≤ most_letters }
    ensures { result ≡ length (separated_cfl_in_ends word.now) }
{
    Factors::of(word).count()
}

/// Writes the ends of the factors to the front of `ends`, and answers their number.
pub fn write_ends(word: &[u8], ends: &mut [u16]) -> usize
    requires short { length word.now ≤ most_letters }
    requires room { length (separated_cfl_in_ends word.now) ≤ length ends.old }
    ensures count { result ≡ length (separated_cfl_in_ends word.now) }
    ensures stored { ends.new ≡ written (separated_cfl_in_ends word.now) ends.old }
{
    // The number is the answer, so it serves as the index; of entries lent by `iter_mut` in a `zip` a proof knows nothing
    // afterwards.
    let mut count: usize = 0;
    for end in Factors::of(word) {
        ends[count] = end as u16;
        count += 1;
    }
    count
}
