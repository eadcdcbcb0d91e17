// The reading calls over a build: its precision and its coarse bounds. Each tests first that state and store are well formed.
#![tactic(auto)]

ghost use Rattle.std.specs.Prelude.{◌≡◌, true, false, MatchResult};
ghost use Rattle.rules.specs.WellFormed.{well_formed};
ghost use Rattle.rules.specs.Precision.{set_precision, next_precision, is_max_precision};
ghost use Rattle.rules.specs.Coarse.{coarse_ub};
ghost use Rattle.rules.specs.declared.Refusal.TheVariants.{NotWellFormed};

use records::Store;
use rules::{Refusal, Set, State};

// Refusal 12: state and store are not well formed. As the test of well formed grows.
fn check_formed(s: State, store: &[u32], clauses: &[i32]) -> Result<(), Refusal>
    ensures { MatchResult result (λ _. well_formed s store.now clauses.now ≡ true) (λ r. (r ≡ NotWellFormed) × (well_formed s store.now clauses.now ≡ false)) }
{
    if check_well_formed::well_formed(s, store, clauses) {
        Ok(())
    } else {
        Err(Refusal::NotWellFormed)
    }
}

// Set the divisor. As the test of well formed grows.
pub fn set_precision(s: State, store: &[u32], clauses: &[i32], divisor: u64) -> Set
    ensures { result ≡ set_precision s store.now clauses.now divisor }
{
    let formed = check_well_formed::well_formed(s, store, clauses);
    precision_steps::set(s, formed, divisor)
}

// The next divisor worth setting. As the test of well formed grows, and linear in the records.
pub fn next_precision(s: State, store: &[u32], clauses: &[i32]) -> Result<u64, Refusal>
    ensures { result ≡ next_precision s store.now clauses.now }
{
    check_formed(s, store, clauses)?;
    let store = Store {
        words: store,
        records: s.records,
    };
    Ok(precision_steps::next(store))
}

// Whether nothing waits. As the test of well formed grows, and linear in the records.
pub fn is_max_precision(s: State, store: &[u32], clauses: &[i32]) -> Result<bool, Refusal>
    ensures { result ≡ is_max_precision s store.now clauses.now }
{
    check_formed(s, store, clauses)?;
    let store = Store {
        words: store,
        records: s.records,
    };
    let waits = records_waiting::some_wait(store);
    Ok(!waits)
}

// The largest bound up to u that the outputs can hold. As the test of well formed grows.
pub fn coarse_ub(s: State, store: &[u32], clauses: &[i32], u: u64) -> Result<u64, Refusal>
    ensures { result ≡ coarse_ub s store.now clauses.now u }
{
    check_formed(s, store, clauses)?;
    Ok(precision_steps::coarse(s.built, s.tares_used, u))
}
