// Finding outputs: the number of an output of a node, its literal, and what it adds to a clause. The promises speak of
// words that store records; what is answered over other words is not said.
#![tactic(auto)]

ghost use Rattle.std.specs.Prelude.{◌≡◌, List};
ghost use Rattle.rules.specs.Records.{Record, literal_word, node_at};
ghost use Rattle.rules.specs.Totalizer.{number_of, literal_of, side};
ghost use Rattle.records.specs.Carries.{Reads};
ghost use Rattle.totalizer_find.specs.Found.{number_word, side_word};
ghost use Rattle.totalizer_find.specs.Hit.{hit_at};

use records::{Kind, Store};

// Whether record i is output v of the node.
#[tactic(auto, unfolding(crate::specs::Hit::hit_at))]
fn hit(store: Store, i: usize, node: u32, v: u32) -> bool
    ensures { result ≡ hit_at store.entry.words.now store.entry.records i node v }
{
    store.field(i, records::KIND) == Kind::Output as u32
        && store.field(i, records::NODE) == node
        && store.field(i, records::VALUE) == v
}

// The number of output v of the node as a literal's word, if it is defined; no number is 0. Linear in the records.
pub fn find(store: Store, node: u32, v: u32) -> Option<u32>
    ensures { (rs : List Record) → Reads store.entry rs → result ≡ number_word (number_of rs node v) }
{
    for i in 0..store.records {
        if hit(store, i, node, v) {
            let number = store.field(i, records::NUMBER);
            return if number == 0 { None } else { Some(number) };
        }
    }
    None
}

// The word of output v of the node: a leaf's is its literal. Linear in the records.
pub fn literal(store: Store, node: u32, v: u32) -> u32
    ensures { (rs : List Record) → Reads store.entry rs → result ≡ literal_word (literal_of (node_at rs node).kind (number_of rs node v)) }
{
    if store.is_leaf(node) {
        store.literal(node)
    } else {
        find(store, node, v).unwrap_or(0)
    }
}

// What the node adds to a clause: the word of its output v negated, nothing where v is 0. Linear in the records.
pub fn side(store: Store, node: u32, v: u32) -> Option<u32>
    ensures { (rs : List Record) → Reads store.entry rs → result ≡ side_word (side rs node v) }
{
    if v == 0 {
        None
    } else {
        Some(numbers::negated(literal(store, node, v)))
    }
}
