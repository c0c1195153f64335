//! All cuts of a record from left to right, before any factor is joined; they are noted in the work buffer.
#![tactic(auto)]

ghost use Rattle.std.specs.Prelude.{◌≡◌, ◌<◌, length};
ghost use Rattle.extension.specs.Extension.{TestRoom};
ghost use Rattle.theory.specs.Stretches.CutSteps.{is_beside_separator};
ghost use Rattle.cuts.specs.Cutting.{CutRoom, FirstCut, CutsFound};

use words::SEPARATOR;

// A cut of a word: after so many letters, with |r|.
#[derive(Clone, Copy, Drop)]
struct Cut {
    prefix: usize,
    border: usize,
}

/// How many cuts there are, and how many of them are breaks.
#[derive(Clone, Copy, Drop)]
pub struct Counts {
    pub cuts: usize,
    pub breaks: usize,
}

// The first cut; none if the word is one factor. A separator is a factor by itself. From a letter below it the test
// stops at a separator at the latest, since that is the largest letter, with an empty r: the stretch ends there.
fn first_cut(word: &[u8], work: &mut [u16]) -> Option<Cut>
    requires { TestRoom word.now work.old }
    ensures { FirstCut word.now work.old result work.new }
{
    if word[0] == SEPARATOR {
        if word.len() == 1 {
            return None;
        }
        return Some(Cut {
            prefix: 1,
            border: 0,
        });
    }
    let found = extension::extension_of(word, work)?;
    Some(Cut {
        prefix: found.prefix,
        border: found.border,
    })
}

/// Whether a separator stands on either side of a place: a cut there is no break.
pub fn beside_separator(word: &[u8], place: usize) -> bool
    requires { (0 < place) × (place < length word.now) }
    ensures { result ≡ is_beside_separator word.now place }
{
    (word[place - 1] == SEPARATOR) | (word[place] == SEPARATOR)
}

/// The cuts, from left to right: for each its place and |r|, from entry `word.len()` of `work` on.
pub fn find_cuts(word: &[u8], work: &mut [u16]) -> Counts
    requires { CutRoom word.now work.old }
    ensures { CutsFound word.now work.old result work.new }
{
    let n = word.len();
    let mut from: usize = 0;
    let mut cuts: usize = 0;
    let mut breaks: usize = 0;
    while from < n {
        let found = first_cut(&word[from..], work);
        let Some(cut) = found else {
            return Counts { cuts, breaks };
        };
        from += cut.prefix;
        work[n + 2 * cuts] = from as u16;
        work[n + 2 * cuts + 1] = cut.border as u16;
        cuts += 1;
        if !beside_separator(word, from) {
            breaks += 1;
        }
    }
    Counts { cuts, breaks }
}
