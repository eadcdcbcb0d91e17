// Start: a build over lent words, or a refusal that writes nothing.
#![tactic(auto)]

ghost use Rattle.std.specs.Prelude.{◌≡◌, true, List, [], map, ℕ, ◌≤◌, length, ℤ, pos};
ghost use Rattle.rules.specs.Lists.{all, total, padded};
ghost use Rattle.rules.specs.Numbers.{lawful_weight};
ghost use Rattle.rules.specs.Records.{literal_word};
ghost use Rattle.rules.specs.Start.{list_of, heaviest, starting_divisor, new_build, start};
ghost use Rattle.preserve.specs.Starts.{Lent};
ghost use Rattle.records.specs.Carries.{st, at, after, Steps};
ghost use Rattle.watchdog_start.specs.Writing.{with_more, leaf_records, wait_records, with_inputs, blank_marks, state_with, Begun, Inputs};

use records::Marks;
use rules::{Combined, Started, State};

// The words of an input: a leaf and a waiting entry.
const INPUT_WORDS: usize = 2 * records::WORDS;

// The marks of a store where nothing is used.
fn blank(first: u32) -> Marks
    ensures { result ≡ blank_marks first }
{
    Marks {
        records: 0,
        words: 0,
        fresh: first,
        clauses: 0,
    }
}

// A leaf for each literal, given by its word. Linear.
fn leaves(s: &mut [u32], mut m: Marks, literals: &[u32]) -> Option<Marks>
    ensures { (lits : List ℤ) → literals.now ≡ map literal_word lits → (c : List ℤ) →
        Steps (st s.old c (at m)) (st s.new c (after result)) (with_more (leaf_records lits)) }
{
    for literal in literals {
        let leaf = records_append::leaf(s, m, *literal)?;
        m = leaf.marks;
    }
    Some(m)
}

// Each leaf waiting with its weight. Linear.
fn waits(s: &mut [u32], mut m: Marks, weights: &[u64]) -> Option<Marks>
    requires { (all lawful_weight weights.now ≡ true) × (length weights.now ≤ 256) }
    ensures { (c : List ℤ) → Steps (st s.old c (at m)) (st s.new c (after result)) (with_more (wait_records weights.now)) }
{
    for (i, weight) in weights.iter().enumerate() {
        m = records_append::waiting(s, m, i as u32, *weight as u32)?;
    }
    Some(m)
}

// The leaves, and then what waits. Linear.
fn put_inputs(s: &mut [u32], m: Marks, literals: &[u32], weights: &[u64]) -> Option<Marks>
    requires { (all lawful_weight weights.now ≡ true) × (length weights.now ≤ 256) }
    ensures { (lits : List ℤ) → literals.now ≡ map literal_word lits → (c : List ℤ) →
        Steps (st s.old c (at m)) (st s.new c (after result)) (with_inputs lits weights.now) }
{
    let leaves = leaves(s, m, literals)?;
    waits(s, leaves, weights)
}

// The weights added up. Linear.
fn sum(weights: &[u64]) -> u64
    requires { (all lawful_weight weights.now ≡ true) × (length weights.now ≤ 256) }
    ensures { result ≡ total weights.now }
{
    weights.iter().sum()
}

// The largest weight; of none it is 0, as in the rules. Linear.
fn heaviest(weights: &[u64]) -> u64
    ensures { result ≡ heaviest weights.now }
{
    weights.iter().fold(0, |most, w| most.max(*w))
}

// The divisor that a new build starts at. Linear.
fn starting_divisor(weights: &[u64]) -> u64
    ensures { result ≡ starting_divisor weights.now }
{
    numbers::power(numbers::top_bit(heaviest(weights)))
}

// A state with no tare and no bucket. Constant time.
fn state(inputs: u32, sum: u64, set: u64, records: usize, first: u32) -> State
    ensures { result ≡ state_with inputs sum set records first }
{
    State {
        inputs,
        sum,
        set,
        built: 0,
        records,
        words: 0,
        clauses: 0,
        variables: 0,
        fresh: first,
        tares: [0; rules::MOST_TARES],
        tares_used: 0,
        buckets: [0; rules::MOST_BUCKETS],
        buckets_used: 0,
    }
}

// The records of a new build of these inputs, all other words zeroed, and its state. Linear in the lists and the lent words.
fn begin(
    literals: &[u32],
    weights: &[u64],
    first: u32,
    store: &mut [u32],
    clauses: &mut [i32],
) -> State
    requires { (all lawful_weight weights.now ≡ true) × (length weights.now ≤ 256) × (length literals.now ≡ length weights.now) }
    ensures begun { (lits : List ℤ) → literals.now ≡ map literal_word lits → Lent lits weights.now first store.old →
        Begun (new_build lits weights.now first) store.old result store.new }
    ensures clauses { clauses.new ≡ padded (pos 0) (length clauses.old) [] }
{
    put_inputs(store, blank(first), literals, weights);
    records_words::zero_words(store, INPUT_WORDS * literals.len());
    records_words::zero_signed(clauses, 0);
    let divisor = starting_divisor(weights);
    state(
        literals.len() as u32,
        sum(weights),
        divisor,
        2 * literals.len(),
        first,
    )
}

// A new build of the combined list. Growth as that of `begin`.
fn begin_list(list: Combined, first: u32, store: &mut [u32], clauses: &mut [i32]) -> State
    requires { Inputs list }
    ensures begun { (lits : List ℤ) (weights : List ℕ) → list ≡ list_of lits weights → Lent lits weights first store.old →
        Begun (new_build lits weights first) store.old result store.new }
    ensures clauses { clauses.new ≡ padded (pos 0) (length clauses.old) [] }
{
    begin(
        &list.literals[..list.used],
        &list.weights[..list.used],
        first,
        store,
        clauses,
    )
}

// Start. Linear in the lists and the lent words, but for combining the lines, which is quadratic over at most 256; a refusal
// reads the lists alone.
pub fn start(
    lits: &[i32],
    weights: &[u64],
    first: u32,
    store: &mut [u32],
    clauses: &mut [i32],
) -> Started
    ensures { record { answer = result; store = store.new; clauses = clauses.new } ≡ start lits.now weights.now first store.old clauses.old }
{
    match start_lists::checked_list(lits, weights, first, store) {
        Ok(list) => Started {
            answer: Ok(()),
            state: begin_list(list, first, store, clauses),
        },
        Err(refusal) => Started {
            answer: Err(refusal),
            state: state(0, 0, 0, 0, 0),
        },
    }
}
