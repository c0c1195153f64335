//! What became of each break: read off the notes of the cuts and the ends of the factors, from left to right, and
//! written five entries a break.
#![tactic(auto)]

ghost use Rattle.std.specs.Prelude.{◌≡◌, ◌+◌, ◌≤◌, length};
ghost use Rattle.std.proofs.lemmas.List.Edits.{sets};
ghost use Rattle.buffers.specs.Buffers.{written};
ghost use Rattle.words.specs.Separated.{separated_breaks};
ghost use Rattle.fates.specs.Entries.{break_entries, entries_of_breaks};
ghost use Rattle.fates.specs.Fates.{Near, fate_by, break_by, WriteRoom, BreakWritten, Writable};

use breaks::Found;
use words::{Break, Fate};

// A cut: its place, where its step began, |r|, and the first end that does not lie before the place.
#[derive(Clone, Copy)]
struct Cut {
    place: u16,
    begun: u16,
    border: u16,
    end: u16,
}

// What became of a cut: kept if that end is its place, otherwise joined to the factor that ends there.
fn fate_of(word: &[u8], cut: Cut) -> Fate
    requires { Near word.now cut }
    ensures { result ≡ fate_by word.now cut }
{
    let Cut {
        place,
        begun,
        border,
        end,
    } = cut;
    if place < end {
        return Fate::Joined(border - (end - place));
    }
    let a = word[begun as usize + border as usize];
    let b = word[place as usize + border as usize];
    Fate::Kept(a, b)
}

// Writes a break's five entries, from entry `at` on.
fn write_break(b: Break, buffer: &mut [u16], at: usize)
    requires { at + 5 ≤ length buffer.old }
    ensures { buffer.new ≡ sets buffer.old at (break_entries b) }
{
    buffer[at] = b.place;
    buffer[at + 1] = b.begun;
    buffer[at + 2] = b.border;
    let fate = b.fate;
    match fate {
        Fate::Kept(x, y) => {
            buffer[at + 3] = x as u16;
            buffer[at + 4] = y as u16;
        }
        Fate::Joined(shortfall) => {
            buffer[at + 3] = 256;
            buffer[at + 4] = shortfall;
        }
    }
}

// Writes a cut, from entry `at` on, if it is a break. Answers the entry after what was written.
fn write_if_break(word: &[u8], cut: Cut, buffer: &mut [u16], at: usize) -> usize
    requires { Near word.now cut × WriteRoom word.now (break_by word.now cut) buffer.old at }
    ensures { BreakWritten word.now (break_by word.now cut) buffer.old at result buffer.new }
{
    if cuts::beside_separator(word, cut.place as usize) {
        return at;
    }
    let told = Break {
        place: cut.place,
        begun: cut.begun,
        border: cut.border,
        fate: fate_of(word, cut),
    };
    write_break(told, buffer, at);
    at + 5
}

/// Writes all breaks of a record whose ends and cuts were found in `work`. The ends go on at a kept cut alone: an iterator
/// of them would give an Option there that always has an end.
pub fn write_breaks(word: &[u8], work: &[u16], found: Found, buffer: &mut [u16])
    requires { Writable word.now work.now found buffer.old }
    ensures { buffer.new ≡ written (entries_of_breaks (separated_breaks word.now)) buffer.old }
{
    let n = word.len();
    let all = 5 * found.breaks;
    let mut next = found.first;
    let mut end = work[next];
    let mut begun: u16 = 0;
    let mut at: usize = 0;
    for k in 0..n {
        if all <= at {
            return; // the cuts that are left lie beside separators
        }
        let place = work[n + 2 * k];
        let border = work[n + 2 * k + 1];
        let cut = Cut {
            place,
            begun,
            border,
            end,
        };
        at = write_if_break(word, cut, buffer, at);
        if place == end {
            next += 1;
            end = work[next];
        }
        begun = place;
    }
}
