//! Runs the calls on many records and compares what they answer, and every entry of the buffers that they are lent,
//! with the second implementation of `naive`: prints for each call on how many inputs the two agreed and disagreed,
//! then the same for inputs at the boundaries of the refusals.
#![tactic(auto)]

mod groups; // the groups of records, and the calls that are made on each
mod printing; // the lines that are printed
#[cfg(test)]
mod rooms; // lists longer than those of the records that are tried

use groups::{Group, try_group};
use samples::Run;
use std::io;

fn main(rt: HostRuntime) -> io::Result<()> {
    let mut run = Run::new(20011);
    try_group(Group::Words { letters: 2 }, 1022, &mut run);
    try_group(Group::Words { letters: 3 }, 1092, &mut run);
    try_group(Group::MarkedWords { letters: 3 }, 1092, &mut run);
    try_group(Group::Random { most: 300 }, 3000, &mut run);
    try_group(Group::Random { most: 4096 }, 60, &mut run);
    try_group(Group::Long, 48, &mut run);
    try_group(Group::Lent, 112, &mut run);
    try_group(Group::Ranges, 14, &mut run);
    try_group(Group::Lists, 7, &mut run);
    try_group(Group::Differences, 50, &mut run);
    printing::print_all(&rt, &run)
}
