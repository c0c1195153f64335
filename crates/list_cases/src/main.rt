//! The list program on further inputs: each file that an argument names, one listing after the other. A folder can be
//! opened and not read; what the program says then goes to standard output here, among the listings.
#![tactic(auto)]

use std::env::{Env, FillError};
use std::fs::File;
use std::{io, str};

fn list_file(rt: &HostRuntime, path: &str) -> io::Result<()> {
    match File::open(rt, path) {
        Ok(mut file) => lister::list(&mut file, &mut rt.stdout(), &mut rt.stdout()),
        Err(error) => eprintln!(rt; "{path}: {error}"),
    }
}

// The file that an argument names; the paths that can be opened are text.
fn list_argument(rt: &HostRuntime, path: &[u8]) -> io::Result<()> {
    match str::from_utf8(path) {
        Ok(path) => list_file(rt, path),
        Err(_) => eprintln!(rt; "a path that is not UTF-8"),
    }
}

// An argument that is too long is taken for an empty one.
fn main(rt: HostRuntime) -> io::Result<()> {
    let mut path = [0u8; 4096];
    for argument in 1..usize::MAX {
        match rt.arg(argument, &mut path) {
            Ok(length) => list_argument(&rt, &path[..length])?,
            Err(FillError::TooLong) => list_argument(&rt, b"")?,
            Err(FillError::NotPresent) => break,
        }
    }
    Ok(())
}
