//! The runs in the result buffer, three entries each, kept in order while one after another is found.
#![tactic(auto)]

ghost use Rattle.std.specs.Prelude.{◌≡◌, ◌+◌, ◌≤◌, length};
ghost use Rattle.buffers.specs.Buffers.{written};
ghost use Rattle.theory.specs.RunStatements.{Earlier};
ghost use Rattle.theory.specs.Orders.Decisions.{Decides};
ghost use Rattle.theory.specs.Repetitions.Insertion.{insert_run};
ghost use Rattle.inserting.specs.Entries.{entries_of_runs};
ghost use Rattle.inserting.specs.Inserting.{triple, run_from, triples, InsertRoom, Belongs, InsertAsked};

/// A run: its first place, its end and its period.
#[derive(Clone, Copy)]
pub struct Run {
    pub first: usize,
    pub end: usize,
    pub period: usize,
}

// Whether the run at entry `at` comes later than this one: by first place and then by period; no end decides that.
fn comes_later(runs: &[u16], at: usize, run: Run) -> bool
    requires { at + 3 ≤ length runs.now }
    ensures { Decides (Earlier (triple run) (run_from runs.now at)) result }
{
    (run.first, run.period) < (runs[at] as usize, runs[at + 2] as usize)
}

// The place of a run among the `count` runs of the list: behind the last that does not come later.
fn place_of(runs: &[u16], count: usize, run: Run) -> usize
    requires { InsertRoom runs.now count }
    ensures { Belongs runs.now count (triple run) result }
{
    for k in (0..count).rev() {
        if !comes_later(runs, 3 * k, run) {
            return k + 1;
        }
    }
    0
}

/// Puts a run among the `count` runs of the list, which are in order: before the first that comes later.
pub fn insert(runs: &mut [u16], count: usize, run: Run)
    requires { InsertAsked runs.old count run }
    ensures { runs.new ≡ written (entries_of_runs (insert_run (triple run) (triples count runs.old))) runs.old }
{
    let at = 3 * place_of(runs, count, run);
    runs.copy_within(at..3 * count, at + 3);
    runs[at] = run.first as u16;
    runs[at + 1] = run.end as u16;
    runs[at + 2] = run.period as u16;
}
