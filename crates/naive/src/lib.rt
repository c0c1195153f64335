//! A second implementation of the calls, by the definitions and not by the proved algorithms, for the program `cases`
//! to compare with. Every function is safe and ends for all arguments; what it answers is not proved, but for how many
//! entries some lists have.
//! It uses none of the proved crates, so its types are its own, and a refusal is the number of its line.
#![tactic(auto)]

mod order; // the inverse order, letter by letter, and the comparison in two ways
mod extension; // the test: every suffix, every length
mod cutting; // a word cut part by part
mod strict; // the strict cut and the start table by the longest anti-Lyndon prefix
mod suffixes; // the same two by comparing suffixes of the whole word
mod pieces; // the piece cut by its recursive definition
mod fold; // the piece cut as a fold over the strict cut
mod ways; // the two ways: by the definitions, and faster
mod breaks; // the breaks of the piece cut, step by step
mod calls; // the lists that calls answer on a record without marks
mod stretches; // the same on records with marks, stretch by stretch
mod refusals; // the table of refusals

pub use calls::{Answer, Room, needed};
pub use order::{Compared, common, compare_letters, compare_words};
pub use refusals::{lent_refusal, part_refusal, range_refusal, summary_refusal};
pub use stretches::{answer, small_answer};
pub use ways::{Defined, Faster, Way};
