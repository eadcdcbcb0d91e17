// Refusal 12: whether a state and a store are well formed, for any state and any words. No clause word is read.
#![tactic(auto)]

ghost use Rattle.std.specs.Prelude.{◌≡◌, true, cond, ◌&&◌, List, map, ℕ, ◌*◌, ◌^◌, ◌≤◌, eqb, leb, ltb, length};
ghost use Rattle.rules.specs.Lists.{all, among, rising};
ghost use Rattle.rules.specs.Records.{Record, Entry, entries};
ghost use Rattle.rules.specs.Build.{tares_of, buckets_of};
ghost use Rattle.rules.specs.WellFormed.{marks_within, tares_within, buckets_within, waiting_last, well_formed};
ghost use Rattle.records.specs.Carries.{Reads};
ghost use Rattle.check_outputs.specs.Steps.{total_cost};
ghost use Rattle.check_well_formed.specs.Groups.{state_right, numbered, waiting_few, built_numbers, built_right, unbuilt_right, records_hold};

use check_outputs::Cost;
use check_records::Limits;
use records::Store;
use rules::State;

// As many records as words can name.
const MOST_RECORDS: usize = records::MOST_PLACE + 1;

// The most inputs, as the state counts them.
const MOST_INPUTS: u32 = rules::MOST_INPUTS as u32;

// The most that waiting entries and their maxima come to.
const MOST_WAITING: u64 = rules::MOST_INPUTS as u64;

// The least number above every weight.
const WEIGHTS_END: u64 = rules::MOST_WEIGHT + 1;

// The most tares, as the state counts them.
const MOST_TARES: u32 = rules::MOST_TARES as u32;

// The largest power of two within a weight.
const TOP_POWER: u64 = 1 << MOST_TARES;

// Whether the marks lie within the slices. Constant time.
#[tactic(auto, unfolding(rules::specs::WellFormed::marks_within, rules::specs::Numbers::capacity))]
fn marks_within(s: State, store: &[u32], clauses: &[i32]) -> bool
    ensures { result ≡ marks_within s store.now clauses.now }
{
    s.records <= MOST_RECORDS && s.records <= records::capacity(store) && s.words <= clauses.len()
}

// Whether the used tares and buckets lie within their arrays and the other slots are 0. Constant time.
#[tactic(auto, using(crate::proofs::Ways::arrays_within_is))]
fn arrays_within(s: State) -> bool
    ensures { result ≡ (tares_within s && buckets_within s) }
{
    check_arrays::slots_within(&s.tares, s.tares_used)
        && check_arrays::slots_within(&s.buckets, s.buckets_used)
}

// The clauses of the state alone: arrays, totals, the next fresh number, the set divisor, the inputs. Constant time.
#[tactic(auto, using(crate::proofs::Ways::state_right_is))]
fn state_right(s: State) -> bool
    ensures { result ≡ state_right s }
{
    arrays_within(s)
        && s.clauses <= s.words
        && s.variables < s.fresh
        && s.fresh <= rules::MOST_FRESH
        && numbers::power_of_two(s.set)
        && s.inputs <= MOST_INPUTS
}

// What waiting weights are below: the built divisor, or any lawful weight's bound. Constant time.
fn top(built: u64) -> u64
    ensures { (w : ℕ) → leb w 1048575 ≡ true → ltb w result ≡ cond (eqb built 0) true (ltb w built) }
{
    if built == 0 { WEIGHTS_END } else { built }
}

// The clauses of records, outputs and numbers. Linear in the records, but for the outputs' nodes and values.
fn numbered(s: State, store: Store, tares: &[u32], buckets: &[u32]) -> bool
    requires { store.records ≤ 4294967296 }
    ensures { (rs : List Record) → Reads store.entry rs → tares.now ≡ tares_of s → buckets.now ≡ buckets_of s → result ≡ numbered s rs }
{
    let lim = Limits {
        low: check_inputs::lowest(store, s.inputs),
        fresh: s.fresh,
        top: top(s.built),
        tares,
        buckets,
    };
    check_records::records_right(store, lim)
        && check_outputs::outputs_rise(store)
        && check_outputs::outputs_distinct(store)
        && check_arrays::distinct(tares)
        && check_arrays::between(tares, lim.low, lim.fresh)
}

// Whether the waiting entries cost at most n. Linear in the records.
fn costs_few(store: Store, cost: Cost, n: u64) -> bool
    ensures { (rs : List Record) → Reads store.entry rs → result ≡ leb (total_cost rs cost rs) n }
{
    check_outputs::spent(store, cost, n).is_some()
}

// Whether the waiting entries cost n. Linear in the records.
fn costs(store: Store, cost: Cost, n: u64) -> bool
    ensures { (rs : List Record) → Reads store.entry rs → result ≡ eqb (total_cost rs cost rs) n }
{
    check_outputs::spent(store, cost, n) == Some(0)
}

// Whether the waiting entries and their maxima are few enough. Linear in the records.
#[tactic(auto, using(crate::proofs::Ways::waiting_few_is))]
fn waiting_few(store: Store) -> bool
    ensures { (rs : List Record) → Reads store.entry rs → result ≡ waiting_few rs }
{
    costs_few(store, Cost::Count, MOST_WAITING) && costs_few(store, Cost::Maximum, MOST_WAITING)
}

// Whether as many entries wait as there are inputs, and each input does. Linear in the records, and quadratic in the inputs.
fn inputs_wait(store: Store, inputs: u32) -> bool
    ensures { (rs : List Record) → Reads store.entry rs → waiting_last rs ≡ true → result ≡ (eqb (length (entries rs)) inputs && all (among (map (λ (e : Entry). e.node) (entries rs))) (rising inputs 0)) }
{
    let from = store.records.saturating_sub(inputs as usize);
    costs(store, Cost::Count, u64::from(inputs)) && check_inputs::each_waits(store, from, inputs)
}

// What unbuilt means. Linear in the records, and quadratic in the inputs.
#[tactic(auto, using(crate::proofs::Ways::unbuilt_right_is))]
fn unbuilt_right(s: State, store: Store) -> bool
    ensures { (rs : List Record) → Reads store.entry rs → waiting_last rs ≡ true → result ≡ unbuilt_right s rs }
{
    s.tares_used == 0
        && s.buckets_used == 0
        && inputs_wait(store, s.inputs)
        && costs(store, Cost::Weight, s.sum)
}

// Whether a built divisor times W, 2 to the tares, is at most 2^19. Constant time.
fn times_weight(built: u64, tares: u32) -> bool
    requires { 1 ≤ built }
    ensures { result ≡ leb (built * 2 ^ tares) (2 ^ 19) }
{
    tares <= MOST_TARES && built <= TOP_POWER / numbers::power(tares)
}

// What built means of the state alone. Constant time.
#[tactic(auto, using(crate::proofs::Ways::built_numbers_is, crate::proofs::Ways::power_positive))]
fn built_numbers(s: State) -> bool
    ensures { result ≡ built_numbers s }
{
    2 <= s.inputs
        && numbers::power_of_two(s.built)
        && s.set <= s.built
        && times_weight(s.built, s.tares_used)
        && 1 <= s.buckets_used
        && u64::from(s.buckets_used) <= u64::from(s.tares_used) + 1
}

// What built means. Linear in the records.
#[tactic(auto, using(crate::proofs::Ways::built_right_is))]
fn built_right(s: State, store: Store, buckets: &[u32]) -> bool
    ensures { (rs : List Record) → Reads store.entry rs → buckets.now ≡ buckets_of s → result ≡ built_right s rs }
{
    built_numbers(s)
        && check_buckets::linked(store, records_waiting::some_wait(store), buckets)
        && check_buckets::lefts_low(store, buckets)
}

// The clauses of the records. Linear in the records, but for the outputs' nodes and values.
#[tactic(auto, using(crate::proofs::Ways::records_hold_is, crate::proofs::Ways::numbered_last))]
fn records_hold(s: State, store: Store, tares: &[u32], buckets: &[u32]) -> bool
    requires { store.records ≤ 4294967296 }
    ensures { (rs : List Record) → Reads store.entry rs → tares.now ≡ tares_of s → buckets.now ≡ buckets_of s → result ≡ records_hold s rs }
{
    check_inputs::leaves_first(store, s.inputs)
        && numbered(s, store, tares, buckets)
        && waiting_few(store)
        && if s.built == 0 {
            unbuilt_right(s, store)
        } else {
            built_right(s, store, buckets)
        }
}

// The clauses of the records, over the used slots of both arrays. Linear in the records, but for the outputs' nodes and values.
fn over_records(s: State, store: Store) -> bool
    requires { (store.records ≤ 4294967296) × (s.tares_used ≤ 19) × (s.buckets_used ≤ 20) }
    ensures { (rs : List Record) → Reads store.entry rs → result ≡ records_hold s rs }
{
    let tares = &s.tares[..s.tares_used as usize];
    let buckets = &s.buckets[..s.buckets_used as usize];
    records_hold(s, store, tares, buckets)
}

// Whether state and store are well formed. Linear in the used records, times the tares and the buckets, but quadratic in the
// outputs, whose nodes and values are compared in pairs.
pub fn well_formed(s: State, store: &[u32], clauses: &[i32]) -> bool
    ensures { result ≡ well_formed s store.now clauses.now }
{
    let used = Store {
        words: store,
        records: s.records,
    };
    marks_within(s, store, clauses)
        && state_right(s)
        && check_kinds::kinds_known(used)
        && over_records(s, used)
}
