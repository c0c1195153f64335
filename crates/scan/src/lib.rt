//! The scan that the test and both factorizations share: it reads letters as long as what is read is inverse Lyndon.
#![tactic(auto)]

ghost use Rattle.std.specs.Prelude.{◌≡◌};
ghost use Rattle.scan.specs.State.{start_state, step_state, Short, Resumes, Rests};

/// The scan's state (paper 01: a state with two places): the number of letters read, and the length of their longest
/// border, which is the place of the letter that the next one meets.
#[derive(Clone, Copy)]
pub struct Scan {
    pub border: usize,
    pub length: usize,
}

impl Scan {
    /// One letter read.
    pub fn start() -> Scan
        ensures { result ≡ start_state }
    {
        Scan {
            border: 0,
            length: 1,
        }
    }

    /// The next state, after a letter that is not larger than the letter it meets.
    pub fn step(self, new: u8, met: u8) -> Scan
        requires { Short self }
        ensures { result ≡ step_state self new met }
    {
        if new == met {
            return Scan {
                border: self.border + 1,
                length: self.length + 1,
            };
        }
        Scan {
            border: 0,
            length: self.length + 1,
        }
    }
}

/// Goes on with a scan to the end of the word or to a letter that is larger than the one it meets.
pub fn scan_on(word: &[u8], from: Scan) -> Scan
    requires { Resumes word.now from }
    ensures { Rests word.now result }
{
    let mut s = from;
    for new in &word[from.length..] {
        let met = word[s.border];
        if met < *new {
            return s;
        }
        s = s.step(*new, met);
    }
    s
}
