//! Paper 01's list program: lists the record on standard input. After a read that failed, standard output is empty and
//! standard error has one line. A write that failed ends the program with its error.
#![tactic(auto)]

use std::io;

fn main(rt: HostRuntime) -> io::Result<()> {
    lister::list(&mut rt.stdin(), &mut rt.stdout(), &mut rt.stderr())
}
