// Walks over the inputs of a store: the first records. The promises speak of words that store records.
#![tactic(auto)]

ghost use Rattle.std.specs.Prelude.{◌≡◌, List, ℕ, leb, ltb, get_or, drop};
ghost use Rattle.rules.specs.Lists.{all, rising};
ghost use Rattle.rules.specs.Records.{Record, unknown, node_at};
ghost use Rattle.rules.specs.WellFormed.{is_leaf, variable_of};
ghost use Rattle.records.specs.Carries.{Reads};
ghost use Rattle.check_inputs.specs.Steps.{is_entry, waits_in};

use records::Store;

// Whether the first records are leaves. Linear in the inputs.
pub fn leaves_first(store: Store, inputs: u32) -> bool
    ensures { (rs : List Record) → Reads store.entry rs → result ≡ all (λ (i : ℕ). is_leaf (node_at rs i).kind) (rising inputs 0) }
{
    (0..inputs).all(|i| store.is_leaf(i))
}

// The variable of node n, 0 where it is no leaf, as in the rules. Constant time.
fn variable(store: Store, n: u32) -> u32
    ensures { (rs : List Record) → Reads store.entry rs → result ≡ variable_of (node_at rs n).kind }
{
    numbers::variable(store.literal(n))
}

// The least number above every input variable: above none it is 0. Linear in the inputs.
pub fn lowest(store: Store, inputs: u32) -> u64
    ensures { (rs : List Record) → Reads store.entry rs → (n : ℕ) → leb result n ≡ all (λ (i : ℕ). ltb (variable_of (node_at rs i).kind) n) (rising inputs 0) }
{
    (0..inputs)
        .map(|i| u64::from(variable(store, i)) + 1)
        .max()
        .unwrap_or(0)
}

// Whether record i is a waiting entry of node n. Constant time.
fn is_entry(store: Store, i: usize, n: u32) -> bool
    ensures { (rs : List Record) → Reads store.entry rs → result ≡ is_entry n (get_or rs i unknown) }
{
    store.is_waiting(i) && store.entry_node(i) == n
}

// Whether node n waits at `from` or later. Linear in the records from there.
fn waits_from(store: Store, from: usize, n: u32) -> bool
    ensures { (rs : List Record) → Reads store.entry rs → result ≡ waits_in (drop from rs) n }
{
    (from..store.records).any(|i| is_entry(store, i, n))
}

// Whether each input waits at `from` or later. Linear in the inputs times the records from there.
pub fn each_waits(store: Store, from: usize, inputs: u32) -> bool
    ensures { (rs : List Record) → Reads store.entry rs → result ≡ all (waits_in (drop from rs)) (rising inputs 0) }
{
    (0..inputs).all(|i| waits_from(store, from, i))
}
