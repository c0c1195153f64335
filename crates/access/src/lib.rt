//! Letters, entries and parts at a place, each defined for all arguments, lists of numbers, and the calls by name: what
//! the second implementation, the records that it is tried on and the trials share.
#![tactic(auto)]

mod entries; // letters, entries and parts at a place
mod lists; // lists of numbers
mod parts; // the parts that a paired list marks, and their summary
mod pairing; // paired lists made of lists of ends
mod calls; // the calls by name

pub use calls::{CALLS, Call, TwoStarts};
pub use entries::{SEPARATOR, entry, front, part, tail};
pub use lists::{BREAK_ENTRIES, Breaks, ENTRIES, Ends, List, PAIR_ENTRIES, Pairs, limited};
pub use pairing::{pair_with_ones, pair_with_strict};
pub use parts::{in_band, latest, longest, part_count, part_end, part_length, part_start};
