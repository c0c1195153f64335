//! The list program's work between its input and its outputs.
#![tactic(auto)]

ghost use Rattle.std.specs.Prelude.{length, OnOk, IsSome};
ghost use Rattle.lister.specs.Reading.{Within, ReadOnce, ReadFull, ReadAll, ReadRest};
ghost use Rattle.lister.specs.Listing.{Lists};

use checks::MOST;
use std::io;
use std::io::{ErrorKind, Read, Write};

// A proved loop has to end, and nothing says that an input does, or that signals do; so such a loop has a number of turns
// that no run uses up.
const TURNS: u64 = u64::MAX;

// Reads once into `buffer`: how many bytes came, 0 at the input's end, or nothing where the read failed. A read that a
// signal interrupts before a byte has come is made again.
fn read_some<R: Read>(input: &mut R, buffer: &mut [u8]) -> Option<usize>
    ensures within { Within result (length buffer.old) }
    ensures read { ReadOnce (R.remaining input.old) (R.remaining input.new) result buffer.new }
{
    for _ in 0..TURNS {
        match input.read(buffer) {
            Ok(count) => return Some(count),
            Err(error) => {
                if error.kind() != ErrorKind::Interrupted {
                    return None;
                }
            }
        }
    }
    None
}

// Reads until `word` is full or the input ends.
fn read_word<R: Read>(input: &mut R, word: &mut [u8]) -> Option<usize>
    ensures within { Within result (length word.old) }
    ensures read { ReadFull (R.remaining input.old) (R.remaining input.new) result word.new }
{
    let mut done: usize = 0;
    while done < word.len() {
        let more = read_some(input, &mut word[done..])?;
        if more == 0 {
            return Some(done);
        }
        done += more;
    }
    Some(done)
}

// Reads once, and keeps nothing.
fn skip_some<R: Read>(input: &mut R) -> Option<usize>
    ensures { ReadRest (R.remaining input.old) (R.remaining input.new) result }
{
    let mut buffer = [0u8; 65536];
    read_some(input, &mut buffer)
}

// Reads what is left of the input, to its end.
fn skip_rest<R: Read>(input: &mut R) -> Option<()>
    ensures { IsSome result → ReadRest (R.remaining input.old) (R.remaining input.new) (Some 0) }
{
    for _ in 0..TURNS {
        if skip_some(input)? == 0 {
            return Some(());
        }
    }
    None
}

// Reads `input` to its end. One byte more than a record may have tells that the record is too long; the bytes after it
// are read too, and change nothing.
fn read_record<R: Read>(input: &mut R, word: &mut [u8]) -> Option<usize>
    ensures within { Within result (length word.old) }
    ensures read { ReadAll (R.remaining input.old) (R.remaining input.new) result word.new }
{
    let length = read_word(input, word)?;
    if MOST < length {
        skip_rest(input)?;
    }
    Some(length)
}

/// Reads `input` to its end and writes the listing of its bytes to `output`. After a read that failed it writes one
/// line to `errors` and nothing else. The error is that of a write.
pub fn list<R: Read, W: Write, E: Write>(
    input: &mut R,
    output: &mut W,
    errors: &mut E,
) -> io::Result<()>
    ensures { OnOk result (Lists (R.remaining input.old) (R.remaining input.new)
        (W.contents output.old) (W.contents output.new) (E.contents errors.old) (E.contents errors.new)) }
{
    let mut word = [0u8; MOST + 1];
    let Some(length) = read_record(input, &mut word) else {
        return errors.write_all(b"list: the record could not be read\n");
    };
    let mut work = [0u16; listing::WORK];
    let mut pairs = [0u16; listing::PAIRS];
    let mut strict = [0u16; MOST];
    let mut out = [0u8; listing::LISTING];
    let size = listing::write_listing(
        &word[..length],
        &mut work,
        &mut pairs,
        &mut strict,
        &mut out,
    );
    output.write_all(&out[..size])
}
