// The public calls as C sees them, over lent slices. Each is the call of its name, demands nothing and takes the time of that call;
// binding_c exports them, each under its name, so that none is an instance of another. Refusals are numbers here: C has no Result.
#![tactic(auto)]

ghost use Rattle.std.specs.Prelude.{◌≡◌, length};
ghost use Rattle.rules.specs.Refusals.{answer_number};
ghost use Rattle.rules.specs.Start.{start};
ghost use Rattle.rules.specs.Precision.{set_precision, next_precision, is_max_precision};
ghost use Rattle.rules.specs.Encode.{encode_ub_change};
ghost use Rattle.rules.specs.Enforce.{enforce_ub};
ghost use Rattle.rules.specs.Coarse.{coarse_ub};
ghost use Rattle.binding.specs.Held.{started, set_to, number_value, divisor_value, yes_value, bound_value, encoded};

use rules::{Refusal, Set, Started, State};

// What start and set_precision answer: the refusal number, else 0, and the state.
#[repr(C)]
#[derive(Clone, Copy)]
pub struct Answered {
    pub refusal: u32,
    pub state: State,
}

// What encode_ub_change answers; the totals are those of the state.
#[repr(C)]
#[derive(Clone, Copy)]
pub struct Encoded {
    pub refusal: u32,
    pub variables: u32,
    pub clauses: usize,
    pub state: State,
}

// What a reading call answers: the refusal number, else 0, and the value, 0 where it refuses.
#[repr(C)]
#[derive(Clone, Copy)]
pub struct Value {
    pub refusal: u32,
    pub value: u64,
}

// The number of an answer. Constant time.
#[tactic(auto, unfolding(rules::specs::Refusals::answer_number))]
fn answer_number(answer: Result<(), Refusal>) -> u32
    ensures { result ≡ answer_number answer }
{
    match answer {
        Ok(()) => 0,
        Err(refusal) => refusal.number(),
    }
}

impl From<Started> for Answered {
    ghost from_gives = { λ r a. a ≡ started r };

    #[tactic(auto, unfolding(crate::specs::Held::started))]
    fn from(r: Started) -> Answered {
        Answered {
            refusal: answer_number(r.answer),
            state: r.state,
        }
    }
}

impl From<Set> for Answered {
    ghost from_gives = { λ r a. a ≡ set_to r };

    #[tactic(auto, unfolding(crate::specs::Held::set_to))]
    fn from(r: Set) -> Answered {
        Answered {
            refusal: answer_number(r.answer),
            state: r.state,
        }
    }
}

impl From<rules::Encoded> for Encoded {
    ghost from_gives = { λ r e. e ≡ encoded r };

    #[tactic(auto, unfolding(crate::specs::Held::encoded))]
    fn from(r: rules::Encoded) -> Encoded {
        Encoded {
            refusal: answer_number(r.answer),
            variables: r.variables,
            clauses: r.clauses,
            state: r.state,
        }
    }
}

// A divisor or a bound.
impl From<Result<u64, Refusal>> for Value {
    ghost from_gives = { λ r v. v ≡ number_value r };

    #[tactic(auto, unfolding(crate::specs::Held::number_value, rules::specs::Refusals::answer_number, rules::specs::Refusals::answer_value))]
    fn from(answer: Result<u64, Refusal>) -> Value {
        match answer {
            Ok(value) => Value { refusal: 0, value },
            Err(refusal) => Value {
                refusal: refusal.number(),
                value: 0,
            },
        }
    }
}

// 1 for yes.
impl From<Result<bool, Refusal>> for Value {
    ghost from_gives = { λ r v. v ≡ yes_value r };

    #[tactic(auto, unfolding(crate::specs::Held::number_value, crate::specs::Held::yes_value, rules::specs::Refusals::answer_number, rules::specs::Refusals::answer_value))]
    fn from(answer: Result<bool, Refusal>) -> Value {
        Value::from(answer.map(u64::from))
    }
}

// start.
pub fn tweedpillar_start(
    lits: &[i32],
    weights: &[u64],
    first: u32,
    store: &mut [u32],
    clauses: &mut [i32],
) -> Answered
    ensures { (result ≡ started (start lits.now weights.now first store.old clauses.old).answer) × (store.new ≡ (start lits.now weights.now first store.old clauses.old).store) × (clauses.new ≡ (start lits.now weights.now first store.old clauses.old).clauses) }
{
    let r = watchdog_start::start(lits, weights, first, store, clauses);
    Answered::from(r)
}

// set_precision.
pub fn tweedpillar_set_precision(s: State, store: &[u32], clauses: &[i32], divisor: u64) -> Answered
    ensures { result ≡ set_to (set_precision s store.now clauses.now divisor) }
{
    let r = watchdog_precision::set_precision(s, store, clauses, divisor);
    Answered::from(r)
}

// next_precision: the divisor.
pub fn tweedpillar_next_precision(s: State, store: &[u32], clauses: &[i32]) -> Value
    ensures { result ≡ divisor_value (next_precision s store.now clauses.now) }
{
    let p = watchdog_precision::next_precision(s, store, clauses);
    Value::from(p)
}

// is_max_precision: 1 for yes, 0 for no.
pub fn tweedpillar_is_max_precision(s: State, store: &[u32], clauses: &[i32]) -> Value
    ensures { result ≡ yes_value (is_max_precision s store.now clauses.now) }
{
    let m = watchdog_precision::is_max_precision(s, store, clauses);
    Value::from(m)
}

// encode_ub_change.
pub fn tweedpillar_encode_ub_change(
    s: State,
    store: &mut [u32],
    clauses: &mut [i32],
    work: &mut [u32],
    lo: u64,
    end: u64,
) -> Encoded
    ensures { (result ≡ encoded (encode_ub_change s store.old clauses.old work.old lo end).answer) × (store.new ≡ (encode_ub_change s store.old clauses.old work.old lo end).store) × (clauses.new ≡ (encode_ub_change s store.old clauses.old work.old lo end).clauses) × (work.new ≡ (encode_ub_change s store.old clauses.old work.old lo end).work) }
{
    let r = watchdog_encode::encode_ub_change(s, store, clauses, work, lo, end);
    Encoded::from(r)
}

// enforce_ub: how many words at the front of the scratch are the answer.
pub fn tweedpillar_enforce_ub(
    s: State,
    store: &[u32],
    clauses: &[i32],
    scratch: &mut [i32],
    u: u64,
    refusal: &mut u32,
) -> usize
    ensures { (scratch.new ≡ (enforce_ub s store.now clauses.now scratch.old u).scratch) × (refusal.new ≡ (enforce_ub s store.now clauses.now scratch.old u).refusal) × (result ≡ length (enforce_ub s store.now clauses.now scratch.old u).answer) }
{
    watchdog_enforce::enforce_count(s, store, clauses, scratch, u, refusal)
}

// coarse_ub: the bound.
pub fn tweedpillar_coarse_ub(s: State, store: &[u32], clauses: &[i32], u: u64) -> Value
    ensures { result ≡ bound_value (coarse_ub s store.now clauses.now u) }
{
    let c = watchdog_precision::coarse_ub(s, store, clauses, u);
    Value::from(c)
}
