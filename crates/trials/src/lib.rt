//! One case of each call, compared with the second implementation of `naive`.
#![tactic(auto)]

mod case; // what a case is made on
mod lending; // the calls that are lent buffers
mod comparing; // the comparison, and that of two words alone with how far they agree
mod parting; // the reader and the summary
mod driver; // so many cases of a call

pub use case::Case;
pub use comparing::{RANGES, WORDS};
pub use driver::{try_cases, try_limits};
