//! The test of a record: is it an inverse Lyndon word, and if not, where does its shortest failing prefix end, and with
//! which border?
#![tactic(auto)]

ghost use Rattle.std.specs.Prelude.{[]};
ghost use Rattle.theory.specs.Scan.ScannedBorders.{ShortestBorder};
ghost use Rattle.checks.specs.Lines.{record_lines};
ghost use Rattle.extension.specs.Extension.{test_says, ExtensionFound, TestRoom, Scanning, Ready, Verdict};

use checks::{Record, Refusal};
use scan::Scan;

/// How a word fails to be inverse Lyndon: L, the length of the shortest failing prefix, and |p| and |r|, which its next
/// letter follows.
#[derive(Clone, Copy, Drop)]
pub struct Extension {
    pub failing: usize,
    pub prefix: usize,
    pub border: usize,
}

// Scans the word, and leaves in `work` the longest border of each prefix that it has passed.
fn scan_borders(word: &[u8], work: &mut [u16]) -> Scan
    requires { TestRoom word.now work.old }
    ensures { Scanning word.now work.old result work.new }
{
    let mut s = Scan::start();
    for at in 1..word.len() {
        let border = s.border;
        let new = word[at];
        let met = word[border];
        if met < new {
            return s;
        }
        work[at - 1] = border as u16;
        s = s.step(new, met);
    }
    s
}

// The shortest border of the first `at` letters whose next letter is below the letter there; `longest` is their longest
// border.
fn shortest_border(word: &[u8], table: &[u16], at: usize, longest: usize) -> usize
    requires { Ready word.now table.now at longest }
    ensures { ShortestBorder word.now at result }
{
    let new = word[at];
    let mut border = longest;
    while 0 < border {
        let next = table[border - 1] as usize;
        if new <= word[next] {
            return border;
        }
        border = next;
    }
    border
}

/// The verdict on a word: nothing for an inverse Lyndon one (paper 01: a falling one), otherwise how it fails. The
/// separator is a letter as any other here. It uses the first entries of `work`, as many as the word has letters.
pub fn extension_of(word: &[u8], work: &mut [u16]) -> Option<Extension>
    requires { TestRoom word.now work.old }
    ensures { Verdict word.now work.old result work.new }
{
    let s = scan_borders(word, work);
    let at = s.length;
    let longest = s.border;
    if word.len() <= at {
        return None;
    }
    let border = shortest_border(word, work, at, longest);
    Some(Extension {
        failing: at + 1,
        prefix: at - border,
        border,
    })
}

/// The test of an accepted record: the call's own lines, 3 and 9, and its work. The letters are looked at only past
/// line 3.
pub fn test(admitted: Record, work: &mut [u16]) -> Result<Option<Extension>, Refusal>
    ensures { ExtensionFound [] admitted.entry.letters.now work.old (test_says result) work.new }
{
    let word = admitted.letters;
    checks::check_work(work.len(), word.len())?;
    checks::check_marks(word)?;
    let found = extension_of(word, work);
    buffers::clear(work, word.len());
    Ok(found)
}

/// The test. Refusals 1, 2, 3, 9; after a result the first entries of `work`, as many as the word has letters, are
/// zero, and a refusal leaves it as it was.
pub fn find_extension(word: &[u8], work: &mut [u16]) -> Result<Option<Extension>, Refusal>
    ensures { ExtensionFound (record_lines word.now) word.now work.old (test_says result) work.new }
{
    let admitted = Record::admit(word)?;
    test(admitted, work)
}
