//! Letters and words in either order of the letters: the natural one, in which the smaller letter comes first, or the
//! inverse one, in which the larger one does.
ghost use Rattle.std.specs.Prelude.{Bool, true, false};
ghost use Rattle.words.specs.Words.{◌≺◌};
ghost use Rattle.theory.specs.Orders.Decisions.{Decides};
ghost use Rattle.common.specs.Orders.{in_order, Precedes, BothBegin};

use super::parting;

/// An order of the letters.
pub trait LetterOrder {
    ghost natural: { Bool };

    /// Whether the letter a comes before b.
    fn precedes(a: u8, b: u8) -> bool
        ensures { Decides (Precedes natural a b) result };
}

/// The smaller letter comes first.
pub struct Natural;

/// The larger letter comes first.
pub struct Inverse;

impl LetterOrder for Natural {
    ghost natural = { true };

    fn precedes(a: u8, b: u8) -> bool {
        a < b
    }
}

impl LetterOrder for Inverse {
    ghost natural = { false };

    fn precedes(a: u8, b: u8) -> bool {
        b < a
    }
}

/// Whether u comes before v. Their first letters decide most often; if these are equal, the letters where both part do,
/// or that u is a proper prefix.
pub fn comes_before<O: LetterOrder>(u: &[u8], v: &[u8]) -> bool
    requires { BothBegin u.now v.now }
    ensures { Decides (in_order O.natural u.now ≺ in_order O.natural v.now) result }
{
    let a = u[0];
    let b = v[0];
    if b != a {
        return O::precedes(a, b);
    }
    match parting(&u[1..], &v[1..]) {
        Some(l) => O::precedes(u[1 + l], v[1 + l]),
        None => u.len() < v.len(),
    }
}
