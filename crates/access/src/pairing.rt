//! Paired lists (request 108) made of lists of ends: beside each end a count, as far as the list has room.
ghost use Rattle.std.specs.Prelude.{◌≡◌, ◌*◌, ◌≤◌, length};

use super::lists::List;

/// Beside each end 1.
pub fn pair_with_ones<const N: usize>(ends: &[u16]) -> List<N>
    ensures { 2 * length ends.now ≤ N → result.count ≡ 2 * length ends.now }
{
    let mut pairs = List::new();
    for end in ends {
        pairs.extend(&[usize::from(*end), 1]);
    }
    pairs
}

/// Beside each piece's end the number of strict pieces inside, whose ends lie after the end before and not after this.
pub fn pair_with_strict<const N: usize>(ends: &[u16], strict: &[u16]) -> List<N>
    ensures { 2 * length ends.now ≤ N → result.count ≡ 2 * length ends.now }
{
    let mut pairs = List::new();
    let mut from = 0;
    for end in ends {
        let to = *end;
        let inside = strict.iter().filter(|x| from < **x && **x <= to).count();
        pairs.extend(&[usize::from(to), inside]);
        from = to;
    }
    pairs
}
