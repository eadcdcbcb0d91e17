// How an encode with something to do ends: what it reached is kept, or, where the room ended, everything is put back; all else is
// set to 0.
#![tactic(auto)]

ghost use Rattle.std.specs.Prelude.{◌≡◌, ◌*◌, ◌≤◌, length};
ghost use Rattle.rules.specs.Build.{build_of};
ghost use Rattle.rules.specs.Encode.{encode_ub_change};
ghost use Rattle.encode_case.specs.Case.{case_of};
ghost use Rattle.encode_case.specs.Call.{Works};
ghost use Rattle.encode_end.specs.Settled.{totalled, settled, state_after};

use build_begin::Structure;
use encode_case::Case;
use encode_outputs::Range;
use records::Store;
use rules::{Encoded, Refusal, State};

// The answer with the totals of its state. Constant time.
pub fn encoded(answer: Result<(), Refusal>, s: State) -> Encoded
    ensures { result ≡ totalled answer s }
{
    Encoded {
        answer,
        clauses: s.clauses,
        variables: s.variables,
        state: s,
    }
}

// The answer with its state, and every word past the state's marks, and the work slice, set to 0. Linear in the words set.
fn settled(
    answer: Result<(), Refusal>,
    s: State,
    store: &mut [u32],
    clauses: &mut [i32],
    work: &mut [u32],
) -> Encoded
    requires { 8 * s.records ≤ length store.old }
    ensures { record { answer = result; store = store.new; clauses = clauses.new; work = work.new } ≡ settled answer s store.old clauses.old work.old }
{
    records_words::zero_words(store, records::WORDS * s.records);
    records_words::zero_signed(clauses, s.words);
    work.fill(0);
    encoded(answer, s)
}

// The state that holds what was reached. Constant time.
fn state_after(s: State, built: u64, z: Structure) -> State
    requires { (s.fresh ≤ z.marks.fresh) × (s.variables ≤ s.fresh) }
    ensures { result ≡ state_after s built z }
{
    let Structure {
        marks: m,
        tares,
        tares_used,
        buckets,
        buckets_used,
        ..
    } = z;
    State {
        built,
        records: m.records,
        words: m.words,
        clauses: m.clauses,
        variables: s.variables + (m.fresh - s.fresh),
        fresh: m.fresh,
        tares,
        tares_used,
        buckets,
        buckets_used,
        ..s
    }
}

// An encode that has something to do: carried out, or refused by 7 with no trace. Grows as the build that is reached does, and
// linear in the words of the slices.
pub fn carried_out(
    s: State,
    store: &mut [u32],
    clauses: &mut [i32],
    work: &mut [u32],
    case: Case,
    range: Range,
) -> Encoded
    requires { Works (record { s = s; store = store.old; clauses = clauses.old; work = work.old; range = range }) × (Ok case ≡ case_of (build_of s store.old)) }
    ensures { record { answer = result; store = store.new; clauses = clauses.new; work = work.new } ≡ encode_ub_change s store.old clauses.old work.old range.lo range.end }
{
    let n = build_begin::before_waiting(Store {
        words: store,
        records: s.records,
    });
    encode_undo::set_aside(s, store, work, n);
    match encode_reach::reach(s, store, clauses, work, n, case.due, range) {
        Some(z) => {
            let state = state_after(s, case.built, z);
            settled(Ok(()), state, store, clauses, work)
        }
        None => {
            encode_undo::put_back(s, store, work, n);
            settled(Err(Refusal::NoRoom), s, store, clauses, work)
        }
    }
}
