// Walks over the outputs and the waiting entries of a store. The promises speak of words that store records.
#![tactic(auto)]

ghost use Rattle.std.specs.Prelude.{◌≡◌, List, ◌+◌, ◌<◌, get_or, drop};
ghost use Rattle.rules.specs.Records.{Record, unknown};
ghost use Rattle.rules.specs.WellFormed.{outputs_rise, outputs_distinct};
ghost use Rattle.records.specs.Carries.{Reads};
ghost use Rattle.check_outputs.specs.Steps.{defines, defined_in, again_in, record_cost, total_cost, spent};

use records::Store;

// What a waiting entry costs.
#[derive(Clone, Copy)]
pub enum Cost {
    // It counts 1.
    Count,
    // The maximum of its node.
    Maximum,
    Weight,
}

// Whether output numbers rise. Linear in the records.
pub fn outputs_rise(store: Store) -> bool
    ensures { (rs : List Record) → Reads store.entry rs → result ≡ outputs_rise rs }
{
    let mut low = 0;
    for i in 0..store.records {
        if store.is_output(i) {
            let number = u64::from(numbers::variable(store.output_number(i)));
            if number < low {
                return false;
            }
            low = number + 1;
        }
    }
    true
}

// Whether record i is output v of node n. Constant time.
fn defines(store: Store, i: usize, n: u32, v: u32) -> bool
    ensures { (rs : List Record) → Reads store.entry rs → result ≡ defines (get_or rs i unknown) n v }
{
    store.is_output(i) && store.output_node(i) == n && store.output_value(i) == v
}

// Whether output v of node n stands at `from` or later. Linear in the records.
fn defined_from(store: Store, from: usize, n: u32, v: u32) -> bool
    ensures { (rs : List Record) → Reads store.entry rs → result ≡ defined_in n v (drop from rs) }
{
    (from..store.records).any(|i| defines(store, i, n, v))
}

// Whether record i is an output that stands again later. Linear in the records.
fn again(store: Store, i: usize) -> bool
    requires { i < store.records }
    ensures { (rs : List Record) → Reads store.entry rs → result ≡ again_in (get_or rs i unknown) (drop (i + 1) rs) }
{
    store.is_output(i) && defined_from(store, i + 1, store.output_node(i), store.output_value(i))
}

// Whether no node and value stands twice among the outputs. Quadratic in the records.
pub fn outputs_distinct(store: Store) -> bool
    ensures { (rs : List Record) → Reads store.entry rs → result ≡ outputs_distinct rs }
{
    (0..store.records).all(|i| !again(store, i))
}

// What record i costs; one that is no waiting entry costs nothing. Constant time.
fn record_cost(store: Store, cost: Cost, i: usize) -> u64
    ensures { (rs : List Record) → Reads store.entry rs → result ≡ record_cost rs cost (get_or rs i unknown) }
{
    if !store.is_waiting(i) {
        return 0;
    }
    match cost {
        Cost::Count => 1,
        Cost::Maximum => u64::from(store.maximum(store.entry_node(i))),
        Cost::Weight => u64::from(store.entry_weight(i)),
    }
}

// What the waiting entries leave of a budget, unless they overspend it. Linear in the records.
pub fn spent(store: Store, cost: Cost, budget: u64) -> Option<u64>
    ensures { (rs : List Record) → Reads store.entry rs → result ≡ spent budget (total_cost rs cost rs) }
{
    let mut left = budget;
    for i in 0..store.records {
        left = left.checked_sub(record_cost(store, cost, i))?;
    }
    Some(left)
}
