//! Two words compared letter by letter: where they part, or that one is a prefix of the other, and which comes first in
//! the inverse order.
#![tactic(auto)]

ghost use Rattle.theory.specs.Orders.CommonLength.{Matched};
ghost use Rattle.letters.specs.Steps.{PrefixOrdered, PartedAt, Parting, Ordered};

use std::cmp::Ordering;

/// Two words x and y compared: `Less` if x comes before y in the inverse order, `Equal` if they are the same; and the
/// number of equal leading letters.
#[derive(Clone, Copy)]
pub struct Order {
    pub sign: Ordering,
    pub common: usize,
}

/// A word of m letters and one of n compared, of which one is a prefix of the other: the shorter one comes first.
pub fn prefix_order(m: usize, n: usize) -> Order
    ensures { PrefixOrdered m n result }
{
    Order {
        sign: m.cmp(&n),
        common: m.min(n),
    }
}

/// Two words that part at l: the one with the larger letter there comes first.
pub fn parted_at(x: &[u8], y: &[u8], l: usize) -> Order
    requires { PartedAt x.now y.now l }
    ensures { Ordered x.now y.now result }
{
    Order {
        sign: y[l].cmp(&x[l]),
        common: l,
    }
}

/// Where two words with l equal leading letters part: at the first place from there where both have letters that differ.
/// None if one is a prefix of the other.
pub fn parting_from(x: &[u8], y: &[u8], l: usize) -> Option<usize>
    requires { Matched x.now y.now l }
    ensures { Parting x.now y.now result }
{
    for k in l..x.len().min(y.len()) {
        if x[k] != y[k] {
            return Some(k);
        }
    }
    None
}
