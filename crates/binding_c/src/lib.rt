// The calls of binding, exported under their C names: a function for each, since an export has one name and no type parameter.
#![tactic(auto)]

ghost use Rattle.std.specs.Prelude.{◌≡◌, length};
ghost use Rattle.rules.specs.Start.{start};
ghost use Rattle.rules.specs.Precision.{set_precision, next_precision, is_max_precision};
ghost use Rattle.rules.specs.Encode.{encode_ub_change};
ghost use Rattle.rules.specs.Enforce.{enforce_ub};
ghost use Rattle.rules.specs.Coarse.{coarse_ub};
ghost use Rattle.binding.specs.Held.{started, set_to, divisor_value, yes_value, bound_value, encoded};

use binding::{Answered, Encoded, Value};
use rules::State;

// start.
#[unsafe(no_mangle)]
pub extern "C" fn tweedpillar_start(
    lits: &[i32],
    weights: &[u64],
    first: u32,
    store: &mut [u32],
    clauses: &mut [i32],
) -> Answered
    ensures { (result ≡ started (start lits.now weights.now first store.old clauses.old).answer) × (store.new ≡ (start lits.now weights.now first store.old clauses.old).store) × (clauses.new ≡ (start lits.now weights.now first store.old clauses.old).clauses) }
{
    binding::tweedpillar_start(lits, weights, first, store, clauses)
}

// set_precision.
#[unsafe(no_mangle)]
pub extern "C" fn tweedpillar_set_precision(
    s: State,
    store: &[u32],
    clauses: &[i32],
    divisor: u64,
) -> Answered
    ensures { result ≡ set_to (set_precision s store.now clauses.now divisor) }
{
    binding::tweedpillar_set_precision(s, store, clauses, divisor)
}

// next_precision: the divisor.
#[unsafe(no_mangle)]
pub extern "C" fn tweedpillar_next_precision(s: State, store: &[u32], clauses: &[i32]) -> Value
    ensures { result ≡ divisor_value (next_precision s store.now clauses.now) }
{
    binding::tweedpillar_next_precision(s, store, clauses)
}

// is_max_precision: 1 for yes, 0 for no.
#[unsafe(no_mangle)]
pub extern "C" fn tweedpillar_is_max_precision(s: State, store: &[u32], clauses: &[i32]) -> Value
    ensures { result ≡ yes_value (is_max_precision s store.now clauses.now) }
{
    binding::tweedpillar_is_max_precision(s, store, clauses)
}

// encode_ub_change.
#[unsafe(no_mangle)]
pub extern "C" fn tweedpillar_encode_ub_change(
    s: State,
    store: &mut [u32],
    clauses: &mut [i32],
    work: &mut [u32],
    lo: u64,
    end: u64,
) -> Encoded
    ensures { (result ≡ encoded (encode_ub_change s store.old clauses.old work.old lo end).answer) × (store.new ≡ (encode_ub_change s store.old clauses.old work.old lo end).store) × (clauses.new ≡ (encode_ub_change s store.old clauses.old work.old lo end).clauses) × (work.new ≡ (encode_ub_change s store.old clauses.old work.old lo end).work) }
{
    binding::tweedpillar_encode_ub_change(s, store, clauses, work, lo, end)
}

// enforce_ub: how many words at the front of the scratch are the answer.
#[unsafe(no_mangle)]
pub extern "C" fn tweedpillar_enforce_ub(
    s: State,
    store: &[u32],
    clauses: &[i32],
    scratch: &mut [i32],
    u: u64,
    refusal: &mut u32,
) -> usize
    ensures { (scratch.new ≡ (enforce_ub s store.now clauses.now scratch.old u).scratch) × (refusal.new ≡ (enforce_ub s store.now clauses.now scratch.old u).refusal) × (result ≡ length (enforce_ub s store.now clauses.now scratch.old u).answer) }
{
    binding::tweedpillar_enforce_ub(s, store, clauses, scratch, u, refusal)
}

// coarse_ub: the bound.
#[unsafe(no_mangle)]
pub extern "C" fn tweedpillar_coarse_ub(s: State, store: &[u32], clauses: &[i32], u: u64) -> Value
    ensures { result ≡ bound_value (coarse_ub s store.now clauses.now u) }
{
    binding::tweedpillar_coarse_ub(s, store, clauses, u)
}
