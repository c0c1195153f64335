//! Paper 01's listing of a record, written into a lent buffer.
#![tactic(auto)]

mod lines;

ghost use Rattle.text.specs.Writing.{WroteAt};
ghost use Rattle.listing.specs.Listing.{listing_of, Listed};
ghost use Rattle.listing.specs.Writing.{CutLists, ListingRoom};

use checks::{MOST, Record};

/// The entries of a work buffer that every record can be cut in.
pub const WORK: usize = 3 * MOST;

/// The entries of a buffer that the pairs of every record fit into.
pub const PAIRS: usize = 2 * MOST;

/// The bytes of a buffer that every listing fits into: five for each entry of each cut, and 256 for all else.
pub const LISTING: usize = 15 * MOST + 256;

// The listing of an accepted record that was cut.
fn write_result(admitted: Record, pairs: &[u16], strict: &[u16], out: &mut [u8]) -> usize
    requires { CutLists admitted.letters.now pairs.now strict.now out.old }
    ensures { WroteAt 0 (listing_of admitted.entry.letters.now) out.old result out.new }
{
    let summary = summary::sum_up(pairs);
    lines::write_lines(admitted.letters.len() as u16, pairs, strict, summary, out)
}

// The listing of an accepted record, in buffers that have room for every record: neither cut refuses it.
fn list_record(
    admitted: Record,
    work: &mut [u16],
    pairs: &mut [u16],
    strict: &mut [u16],
    out: &mut [u8],
) -> usize
    requires { ListingRoom work.old pairs.old strict.old out.old }
    ensures { Listed admitted.entry.letters.now work.old pairs.old strict.old out.old result
        work.new pairs.new strict.new out.new }
{
    let pieces = icfl::cut(admitted, work, pairs).unwrap();
    let stricts = cfl::cut(admitted, strict).unwrap();
    write_result(
        admitted,
        &pairs[..pairs::entries(pieces)],
        &strict[..stricts],
        out,
    )
}

/// Writes the listing of `word` to the front of `out` and answers its length: seven lines, or the one line of refusal 1
/// or 2. The buffers have room for every record; `work`, `pairs` and `strict` are left as the piece cut and the strict
/// cut leave them. Each buffer is lent on to another call, so they are four and not a struct.
pub fn write_listing(
    word: &[u8],
    work: &mut [u16; WORK],
    pairs: &mut [u16; PAIRS],
    strict: &mut [u16; MOST],
    out: &mut [u8; LISTING],
) -> usize
    ensures { Listed word.now work.old pairs.old strict.old out.old result
        work.new pairs.new strict.new out.new }
{
    match Record::admit(word) {
        Ok(admitted) => list_record(admitted, work, pairs, strict, out),
        Err(refusal) => lines::write_refusal(refusal, out),
    }
}
