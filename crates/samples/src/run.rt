//! What a run of the program carries along: the state of the generator, and counts of the cases on which the proved
//! call and the second implementation agreed, and of those on which they did not.
ghost use Rattle.std.specs.Prelude.{◌<◌, ◌^◌};

use access::{CALLS, Call};
use std::fmt;

/// On how many cases of a call the two agreed, and on how many not.
#[derive(Clone, Copy, Default)]
pub struct Count {
    pub agreed: usize,
    pub disagreed: usize,
}

impl fmt::Display for Count {
    fn fmt<W: fmt::Write>(&self, f: &mut fmt::Formatter<W>) -> fmt::Result {
        let agreed = self.agreed;
        let disagreed = self.disagreed;
        write!(f, "agreed={agreed} disagreed={disagreed}")
    }
}

/// These counts for each call.
#[derive(Clone, Copy)]
pub struct Counts {
    counts: [Count; CALLS],
}

impl Counts {
    fn new() -> Counts {
        Counts {
            counts: [Count::default(); CALLS],
        }
    }

    /// The counts of a call.
    pub fn of(&self, call: Call) -> Count {
        self.counts[call as usize]
    }

    /// Counts one case.
    pub fn note(&mut self, call: Call, agreed: bool) {
        let count = &mut self.counts[call as usize];
        if agreed {
            count.agreed = count.agreed.saturating_add(1);
        } else {
            count.disagreed = count.disagreed.saturating_add(1);
        }
    }
}

/// The state of the generator and the counts: of the cases on records, and of those at the boundaries of the refusals.
#[derive(Clone, Copy)]
pub struct Run {
    state: usize,
    pub cases: Counts,
    pub limits: Counts,
}

impl Run {
    /// No case yet, and the generator in a state.
    pub fn new(state: usize) -> Run {
        Run {
            state,
            cases: Counts::new(),
            limits: Counts::new(),
        }
    }

    /// The next number of the linear congruential generator with the multiplier 48,271 and the modulus 2^31 − 1,
    /// reduced below `below`.
    pub fn draw(&mut self, below: usize) -> usize
        ensures small { result < 2 ^ 31 }
        ensures below { 0 < below → result < below }
    {
        self.state = (self.state % 2147483647) * 48271 % 2147483647;
        if below == 0 { 0 } else { self.state % below }
    }
}
