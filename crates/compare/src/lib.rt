//! The comparison of two suffixes of a word within a range, in the inverse order, and how far they agree.
#![tactic(auto)]

mod suffixes; // compare_suffixes: the call; compare_within: the same in a record that was accepted

pub use letters::Order;
pub use suffixes::{Starts, compare_suffixes, compare_within};
