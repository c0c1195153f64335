//! The breaks of the piece cut by paper 01's sentences: the test of what is left gives p and r, then what follows p is
//! cut as a word by itself, and the length of its first piece against |r| says whether it is joined. A break has five
//! entries: the place where p ends, the place where the step began, |r|; then a and b where p stands as a piece, 256
//! and |r| less the joined piece's length where it does not.
ghost use Rattle.std.specs.Prelude.{◌<◌};

use super::extension::Failing;
use super::ways::Way;
use access::{Breaks, entry, tail};

// The last two entries of a break, where this is left and begins with p r.
fn last_entries<W: Way<N>, const N: usize>(rest: &[u8], found: Failing) -> [usize; 2]
    requires { N < 65536 }
{
    let pieces = W::pieces(tail(rest, found.prefix));
    let first = entry(pieces.as_slice(), 0);
    if first <= found.border {
        return [256, found.border - first];
    }
    let last = found.length.saturating_sub(1);
    [entry(rest, found.border), entry(rest, last)]
}

/// The breaks, each rest tested and cut in one of the ways, with room for N pieces.
pub fn breaks<W: Way<N>, const N: usize>(word: &[u8]) -> Breaks
    requires { N < 65536 }
{
    let mut list = Breaks::new();
    let mut begun: usize = 0;
    while begun < word.len() {
        let rest = tail(word, begun);
        let Some(found) = W::failing(rest) else {
            return list;
        };
        let place = begun.saturating_add(found.prefix.max(1));
        list.extend(&[place, begun, found.border]);
        list.extend(&last_entries::<W, N>(rest, found));
        begun = place;
    }
    list
}
