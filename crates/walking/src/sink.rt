//! Where the runs that are found go: they are counted alone, or put into the list of the result buffer.
ghost use Rattle.std.specs.Prelude.{Bool, true, false};
ghost use Rattle.walking.specs.Walking.{PutAsked, Put};

use inserting::{Run, insert};

// What is done with a run beside the `count` runs before it.
pub trait Sink {
    ghost stores: { Bool };

    fn put(runs: &mut [u16], count: usize, run: Run)
        requires { PutAsked stores runs.old count run }
        ensures { Put stores runs.old count run runs.new };
}

// Nothing: the runs are counted by who calls.
pub struct Count;

// It is put into the list in the buffer.
pub struct List;

impl Sink for Count {
    ghost stores = { false };

    fn put(runs: &mut [u16], count: usize, run: Run) {}
}

impl Sink for List {
    ghost stores = { true };

    fn put(runs: &mut [u16], count: usize, run: Run) {
        insert(runs, count, run);
    }
}
