// encode_ub_change: the first build or a refinement where it is due, and the outputs of a range.
#![tactic(auto)]

ghost use Rattle.std.specs.Prelude.{◌≡◌};
ghost use Rattle.rules.specs.Encode.{encode_ub_change};
ghost use Rattle.watchdog_encode.specs.Before.{Before};

use encode_case::Case;
use encode_outputs::Range;
use rules::{Encoded, Refusal, State};

// What is left to do, if anything is, or the first of 12, 6 and 10 that holds. Grows as the test of well formed does, and a find for
// each output of the range.
fn left_to_do(
    s: State,
    store: &[u32],
    clauses: &[i32],
    work: &[u32],
    range: Range,
) -> Result<Option<Case>, Refusal>
    ensures { Before (record { s = s; store = store.now; clauses = clauses.now; work = work.now; range = range }) result }
{
    if !check_well_formed::well_formed(s, store, clauses) {
        return Err(Refusal::NotWellFormed);
    }
    if work.len() < rules::WORK_WORDS {
        return Err(Refusal::WorkShort);
    }
    if encode_case::nothing_asked(s, range) {
        return Ok(None);
    }
    let case = encode_case::which_case(s, store)?;
    if encode_case::nothing_to_do(s, store, case.due, range) {
        Ok(None)
    } else {
        Ok(Some(case))
    }
}

// Encode: 12 first; 6; empty range or under two inputs is accepted; 10; then the first build or the refinement that is due, and the
// outputs of the range lo to end - 1; 7 leaves no trace. Grows as the test of well formed and the build that is reached do: a find
// for each output asked for, two for each clause; linear in the words of the slices, which are settled.
pub fn encode_ub_change(
    s: State,
    store: &mut [u32],
    clauses: &mut [i32],
    work: &mut [u32],
    lo: u64,
    end: u64,
) -> Encoded
    ensures { record { answer = result; store = store.new; clauses = clauses.new; work = work.new } ≡ encode_ub_change s store.old clauses.old work.old lo end }
{
    let range = Range { lo, end };
    match left_to_do(s, store, clauses, work, range) {
        Ok(Some(case)) => encode_end::carried_out(s, store, clauses, work, case, range),
        Ok(None) => encode_end::encoded(Ok(()), s),
        Err(refusal) => encode_end::encoded(Err(refusal), s),
    }
}
