//! So many cases of a call on one record.
use super::case::Case;
use super::{comparing, lending, parting};
use access::Call;
use samples::Run;

// Whether the call and the second implementation agree on case `code`.
fn agrees(case: Case, code: usize, run: &mut Run) -> bool {
    match case.call {
        Call::Compare => comparing::agrees(case.word, case.list, code, run),
        Call::Common => comparing::words_agree(case.word, code, run),
        Call::Part => parting::part_agrees(case.word, case.list, code),
        Call::Summary => parting::summary_agrees(case.word, case.list),
        _ => lending::agrees(case),
    }
}

// The same on case `code` at the boundaries of the refusals.
fn agrees_at_limits(case: Case, code: usize) -> bool {
    match case.call {
        Call::Compare => comparing::agrees_at_limits(case.word, code),
        Call::Part => parting::part_agrees_at_limits(case.word, code),
        Call::Summary => parting::summary_agrees_at_limits(case.word, code),
        _ => lending::agrees_at_limits(case, code),
    }
}

/// The first `many` cases of a call.
pub fn try_cases(case: Case, many: usize, run: &mut Run) {
    for code in 0..many {
        let agreed = agrees(case, code, run);
        run.cases.note(case.call, agreed);
    }
}

/// The first `many` cases at the boundaries of its refusals.
pub fn try_limits(case: Case, many: usize, run: &mut Run) {
    for code in 0..many {
        run.limits.note(case.call, agrees_at_limits(case, code));
    }
}
