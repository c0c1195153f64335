//! The judge of a list of ends (request 109): one part and the next at a time, without cutting and without a buffer. A
//! part is inverse Lyndon (paper 01: it falls); it is below the next one at a letter that both have; and no border of it
//! begins the next one, which the length of its last anti-Lyndon factor tells. How the list is held is its caller's
//! affair.
#![tactic(auto)]

ghost use Rattle.std.specs.Prelude.{◌≡◌, length};
ghost use Rattle.words.specs.Factorizations.{cfl_in};
ghost use Rattle.theory.specs.Judging.LastFactor.{last_word};
ghost use Rattle.theory.specs.Judging.Judge.{judged_pair, judged_turn};
ghost use Rattle.judging.specs.Judging.{Bordered, BorderScanned, ScannedWhole, Neighbours, Turn, Told};

use scan::Scan;

// The scan of the longest border of the letters that were scanned, which have one. It is known where the border is as
// long as the period; otherwise it has less than half the letters.
fn scan_border(word: &[u8], s: Scan) -> Scan
    requires { Bordered word.now s }
    ensures { BorderScanned word.now s result }
{
    let border = s.border;
    let period = s.length - border;
    if period <= border {
        return Scan {
            border: border - period,
            length: border,
        };
    }
    let start = Scan::start();
    scan::scan_on(&word[..border], start)
}

// The length of the last anti-Lyndon factor of an inverse Lyndon word, of which `whole` is the scan: the shortest of its
// borders, or the word itself.
fn last_factor(word: &[u8], whole: Scan) -> usize
    requires { ScannedWhole word.now whole }
    ensures { result ≡ length (last_word (cfl_in word.now)) }
{
    let mut s = whole;
    while 0 < s.border {
        s = scan_border(word, s);
    }
    s.length
}

// An inverse Lyndon part, of which `whole` is the scan, and the next part, which begins at `end`: how many letters of
// the record tell a fault, if there is one.
fn judge_pair(part: &[u8], next: &[u8], end: usize, whole: Scan) -> Option<usize>
    requires { Neighbours part.now next.now end whole }
    ensures { Told (judged_pair part.now next.now end) result }
{
    let common = common::common_length(part, next);
    if part.len() <= common {
        return Some(end + common);
    }
    if next.len() <= common {
        return Some(end + common);
    }
    if next[common] <= part[common] {
        return Some(end + common + 1);
    }
    if common == 0 {
        return None; // no border begins the next part: the usual case, without a look for one
    }
    let last = last_factor(part, whole);
    if part.len() <= last {
        return None;
    }
    if last <= common {
        return Some(end + common + 1);
    }
    None
}

/// The part of the record from `first` to `end`, and it beside the next one, which ends at `next`; as in the definition
/// (judged_turn), `next` is `end` where no part follows. How many letters of the record tell that no list with these ends
/// is its own, if they do.
pub fn judge_turn(word: &[u8], first: usize, end: usize, next: usize) -> Option<usize>
    requires { Turn word.now first end next }
    ensures { Told (judged_turn word.now first end next) result }
{
    if word[first] == words::SEPARATOR {
        if end <= first + 1 {
            return None;
        }
        return Some(first + 1);
    }
    let part = &word[first..end];
    let start = Scan::start();
    let s = scan::scan_on(part, start);
    let read = s.length;
    if read < part.len() {
        return Some(first + read + 1);
    }
    if next <= end {
        return None;
    }
    judge_pair(part, &word[end..next], end, s)
}
