//! The table of refusals, paper 01's lines and those that requests add: a function for each line. A call tries its lines
//! in the table's order, each by `?`, which passes a refusal up unchanged.
#![tactic(auto)]

mod admission; // Record: a record that passed the lines of every record
mod lines; // the other lines of the table
mod refusals; // Refusal: the lines by name, and their numbers

pub use admission::{MOST, Record};
pub use conditions::MOST_RECORDS;
pub use lines::{
    check_marks, check_number, check_pairs, check_part, check_range, check_record_ends,
    check_result, check_start, check_work,
};
pub use refusals::Refusal;
