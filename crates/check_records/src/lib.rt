// One pass over the records of a store: most clauses of well formed. The promises speak of words that store records.
#![tactic(auto)]

ghost use Rattle.std.specs.Prelude.{◌≡◌, ◌&&◌, List, ◌≤◌, ◌<◌, eqb, get_or};
ghost use Rattle.rules.specs.Records.{leaf, join, Record, unknown, node_at, word_literal};
ghost use Rattle.rules.specs.WellFormed.{spares_buckets};
ghost use Rattle.records.specs.Carries.{Reads};
ghost use Rattle.check_records.specs.Tests.{kind_right, output_right, entry_right, record_right, order_at, place_right, records_right};

use records::Store;

// The largest maximum of a node: a bucket's members, its tare, and the half of what stands below.
const MOST_MAXIMUM: u32 = 2 * (rules::MOST_INPUTS as u32) + 1;

// The largest weight, as a record holds it.
const MOST_WEIGHT: u32 = rules::MOST_WEIGHT as u32;

// What records are compared with: output numbers are at least `low`, below `fresh` and no tare, waiting weights are below
// `top`, and no bucket waits.
#[derive(Clone, Copy)]
pub struct Limits<'a> {
    pub low: u64,
    pub fresh: u32,
    pub top: u64,
    pub tares: &'a [u32],
    pub buckets: &'a [u32],
}

// Whether a leaf is right, by its literal's word. Constant time.
#[tactic(auto, unfolding(crate::specs::Tests::kind_right, rules::specs::Numbers::lawful))]
fn leaf_right(a: u32, m: u32, h: u32) -> bool
    ensures { (rs : List Record) → result ≡ kind_right rs (leaf (word_literal a)) m h }
{
    let x = numbers::variable(a);
    m == 1 && h == 0 && 1 <= x && x <= rules::MOST_VARIABLE
}

// Whether a join is right, by its sides, maximum and height. Constant time.
#[tactic(auto, unfolding(crate::specs::Tests::kind_right))]
fn join_right(store: Store, half: bool, l: u32, r: u32, maximum: u32, height: u32) -> bool
    ensures { (rs : List Record) → Reads store.entry rs → result ≡ kind_right rs (join half l r) maximum height }
{
    let x = u64::from(store.maximum(l));
    let y = u64::from(records_append::counted(half, store.maximum(r)));
    let z = u64::from(store.height(l).max(store.height(r)));
    store.is_node(l)
        && store.is_node(r)
        && maximum <= MOST_MAXIMUM
        && u64::from(maximum) == x + y
        && u64::from(height) == z + 1
}

// Whether node n is right, as which a place without a node is taken. Constant time.
fn node_right(store: Store, n: u32) -> bool
    ensures { (rs : List Record) → Reads store.entry rs → result ≡ kind_right rs (node_at rs n).kind (node_at rs n).maximum (node_at rs n).height }
{
    let maximum = store.maximum(n);
    let height = store.height(n);
    if store.is_leaf(n) {
        leaf_right(store.literal(n), maximum, height)
    } else if store.is_join(n) {
        let half = store.halved(n);
        join_right(store, half, store.left(n), store.right(n), maximum, height)
    } else {
        maximum == 0 && height == 0
    }
}

// Whether output v of node n is right, by its number x. Linear in the tares.
#[tactic(auto, unfolding(crate::specs::Tests::output_right))]
fn output_right(store: Store, lim: Limits, n: u32, v: u32, x: u32) -> bool
    ensures { (rs : List Record) → Reads store.entry rs → result ≡ output_right rs lim.entry.tares.now lim.entry n v x }
{
    store.is_node(n)
        && !store.is_leaf(n)
        && 1 <= v
        && v <= store.maximum(n)
        && lim.low <= u64::from(x)
        && x < lim.fresh
        && !check_arrays::among(lim.tares, x)
}

// Whether node n may wait with weight w. Linear in the buckets.
#[tactic(auto, unfolding(crate::specs::Tests::entry_right))]
fn entry_right(store: Store, lim: Limits, n: u32, w: u32) -> bool
    ensures { (rs : List Record) → Reads store.entry rs → result ≡ entry_right rs lim.entry.buckets.now lim.entry n w }
{
    store.is_node(n)
        && 1 <= w
        && w <= MOST_WEIGHT
        && u64::from(w) < lim.top
        && !check_arrays::among(lim.buckets, n)
}

// Whether the record at place n is right by itself. Linear in the tares and the buckets.
fn record_right(store: Store, lim: Limits, n: u32) -> bool
    ensures { (rs : List Record) → Reads store.entry rs → result ≡ record_right rs lim.entry.tares.now lim.entry.buckets.now lim.entry (get_or rs n unknown) }
{
    let i = n as usize;
    if store.is_output(i) {
        let number = numbers::variable(store.output_number(i));
        output_right(
            store,
            lim,
            store.output_node(i),
            store.output_value(i),
            number,
        )
    } else if store.is_waiting(i) {
        entry_right(store, lim, store.entry_node(i), store.entry_weight(i))
    } else {
        node_right(store, n)
    }
}

// Whether record i is followed as waiting entries are. Constant time.
#[tactic(auto, unfolding(crate::specs::Tests::order_at))]
fn order_at(store: Store, i: usize) -> bool
    requires { i < store.records }
    ensures { (rs : List Record) → Reads store.entry rs → result ≡ order_at rs i }
{
    !store.is_waiting(i) || i + 1 == store.records || store.is_waiting(i + 1)
}

// Whether node n names no bucket but the one below. Linear in the buckets.
fn spare_at(store: Store, buckets: &[u32], n: u32) -> bool
    ensures { (rs : List Record) → Reads store.entry rs → result ≡ spares_buckets buckets.now n (node_at rs n).kind }
{
    if !store.is_join(n) {
        return true;
    }
    let r = store.right(n);
    !check_arrays::among(buckets, store.left(n))
        && (!check_arrays::among(buckets, r) || check_arrays::above(buckets, n as usize, r))
}

// Whether record i is right where it stands. Linear in the tares and the buckets.
#[tactic(auto, unfolding(crate::specs::Tests::place_right))]
fn place_right(store: Store, lim: Limits, i: usize) -> bool
    requires { (i < store.records) × (store.records ≤ 4294967296) }
    ensures { (rs : List Record) → Reads store.entry rs → result ≡ place_right rs lim.entry.tares.now lim.entry.buckets.now lim.entry i }
{
    let n = i as u32;
    record_right(store, lim, n) && order_at(store, i) && spare_at(store, lim.buckets, n)
}

// Whether every record is right where it stands. Linear in the records, times the tares and the buckets.
pub fn records_right(store: Store, lim: Limits) -> bool
    requires { store.records ≤ 4294967296 }
    ensures { (rs : List Record) → Reads store.entry rs → result ≡ records_right rs lim.entry.tares.now lim.entry.buckets.now lim.entry }
{
    (0..store.records).all(|i| place_right(store, lim, i))
}
