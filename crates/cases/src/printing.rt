//! The lines of the program: for each call on how many inputs it agreed with the second implementation, and on how many
//! not.
use access::Call;
use samples::Run;
use std::io;

// The calls as the lines name them; the last one has no refusal.
const NAMES: [(Call, &str); 9] = [
    (Call::Test, "find_extension"),
    (Call::Pieces, "icfl"),
    (Call::Breaks, "icfl_with_breaks"),
    (Call::Strict, "cfl_in"),
    (Call::Starts, "lyndon_table"),
    (Call::Compare, "compare_suffixes"),
    (Call::Part, "factor_at"),
    (Call::Summary, "summarize"),
    (Call::Common, "common_length, compare_words"),
];

/// All lines.
pub fn print_all(out: &impl Print, run: &Run) -> io::Result<()> {
    for (call, name) in &NAMES {
        println!(out; "{name} {}", run.cases.of(*call))?;
    }
    for (call, name) in &NAMES[..8] {
        println!(out; "{name} refusals {}", run.limits.of(*call))?;
    }
    Ok(())
}
