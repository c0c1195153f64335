//! What the trials of the calls are made from, and what they leave: records, numbers and buffers, and the counts of a
//! run.
#![tactic(auto)]

mod run; // the generator of pseudo-random numbers, and the counts of agreeing and disagreeing cases
mod shapes; // records of a shape: all short ones, periodic and random ones, ramps, plateaus
mod marks; // marks, put into these
mod records; // the records on which the calls are compared: random ones, and shapes of a length at the boundaries
mod numbers; // numbers at boundaries, and lists of them
mod buffers; // buffers filled before a call and looked through after it

pub use buffers::{fill, is_cleared, is_written};
pub use numbers::{LISTS, about, paired_list, small_paired_list};
pub use records::{LENGTHS, random_record, shaped_record, spell_with_marks};
pub use run::{Count, Counts, Run};
pub use shapes::spell;
