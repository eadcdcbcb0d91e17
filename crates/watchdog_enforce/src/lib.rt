// Enforce: the literals to assume so that a bound holds.
#![tactic(auto)]

ghost use Rattle.std.specs.Prelude.{◌≡◌, length};
ghost use Rattle.rules.specs.Enforce.{enforce_ub};
ghost use Rattle.enforce_answer.specs.Ends.{Answers};

use rules::{Refusal, State};

// How many words at the front of the scratch are the answer, or the refusal; every other word of it is as it was. As the test of
// well formed grows, and linear in the records.
fn answer(
    s: State,
    store: &[u32],
    clauses: &[i32],
    scratch: &mut [i32],
    u: u64,
) -> Result<usize, Refusal>
    ensures { (scratch.new ≡ (enforce_ub s store.now clauses.now scratch.old u).scratch) ×
        Answers (enforce_ub s store.now clauses.now scratch.old u) result }
{
    if check_well_formed::well_formed(s, store, clauses) {
        enforce_answer::answer(s, store, scratch, u)
    } else {
        Err(Refusal::NotWellFormed)
    }
}

// How many words at the front of the scratch are the answer; every other word of it is as it was. The refusal number, else 0,
// stands in the lent word: so document 01 and the C interface say. As the test of well formed grows, and linear in the records.
pub fn enforce_count(
    s: State,
    store: &[u32],
    clauses: &[i32],
    scratch: &mut [i32],
    u: u64,
    refusal: &mut u32,
) -> usize
    ensures { (scratch.new ≡ (enforce_ub s store.now clauses.now scratch.old u).scratch) ×
        (refusal.new ≡ (enforce_ub s store.now clauses.now scratch.old u).refusal) ×
        (result ≡ length (enforce_ub s store.now clauses.now scratch.old u).answer) }
{
    match answer(s, store, clauses, scratch, u) {
        Ok(count) => {
            *refusal = 0;
            count
        }
        Err(r) => {
            *refusal = r.number();
            0
        }
    }
}

// The answer as the front part of the caller's own scratch, where the scratch starts. As the test of well formed grows, and
// linear in the records.
pub fn enforce_ub<'a>(
    s: State,
    store: &[u32],
    clauses: &[i32],
    scratch: &'a mut [i32],
    u: u64,
    refusal: &mut u32,
) -> &'a mut [i32]
    ensures { (result.now ≡ (enforce_ub s store.now clauses.now scratch.old u).answer) ×
        (result.ref_ptr ≡ scratch.entry.ref_ptr) ×
        (refusal.new ≡ (enforce_ub s store.now clauses.now scratch.old u).refusal) }
{
    let n = enforce_count(s, store, clauses, scratch, u, refusal);
    &mut scratch[..n]
}
