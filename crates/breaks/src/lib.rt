//! The ends of a record's factors in the canonical inverse Lyndon factorization: all cuts from left to right, then the
//! ends from the last to the first. Both stand in the work buffer afterwards.
#![tactic(auto)]

ghost use Rattle.cuts.specs.Cutting.{CutRoom, Noted};
ghost use Rattle.breaks.specs.Gathering.{EndsGathered, CutFound};

/// Where the ends and the notes of the cuts stand in the work buffer, for a word of n letters: the ends from entry
/// `first` to entry n, the notes, two entries a cut, from there on. Those cuts that lie beside no separator, `breaks`
/// in number, are the breaks. Places and no slices, since the buffer that is lent holds both lists and there is no heap.
#[derive(Drop)]
pub struct Found {
    pub first: usize,
    pub breaks: usize,
}

// From the last cut to the first: where the first factor of the rest is no longer than |r|, it is joined; otherwise the
// place is kept. The ends gather in front of entry n, where the test needs no entry any more; the answer is the entry
// of the first one.
fn gather_ends(word: &[u8], work: &mut [u16], count: usize) -> usize
    requires { CutRoom word.now work.old × Noted word.now work.old count }
    ensures { EndsGathered word.now work.old result work.new }
{
    let n = word.len();
    let mut top = n - 1;
    let mut next = n;
    work[top] = n as u16;
    for k in (0..count).rev() {
        let place = work[n + 2 * k] as usize;
        let border = work[n + 2 * k + 1] as usize;
        if place + border < next {
            top -= 1;
            work[top] = place as u16;
            next = place;
        }
    }
    top
}

/// The ends of the factors of a record that was accepted, and its cuts, left in the work buffer.
pub fn find_ends(word: &[u8], work: &mut [u16]) -> Found
    requires { CutRoom word.now work.old }
    ensures { CutFound word.now work.old result work.new }
{
    let counts = cuts::find_cuts(word, work);
    let breaks = counts.breaks;
    let first = gather_ends(word, work, counts.cuts);
    Found { first, breaks }
}
