// Link and maximum of the store's nodes, copied into a lent slice of structs and read there.
#![tactic(auto)]

ghost use Rattle.std.specs.Prelude.{◌≡◌};
ghost use Rattle.rules.specs.Totalizer.{counts};
ghost use Rattle.node_structs.specs.Nodes.{node_in, read_node, Copies, former_half_in};

use records::{Kind, Store};

// The right link of a node, 0 where it is no join as in the rules, and its maximum.
#[derive(Clone, Copy)]
pub struct Node {
    pub link: u32,
    pub maximum: u32,
}

// Link and maximum of record n. Constant time.
fn stored(store: Store, n: usize) -> Node
    ensures { result ≡ read_node store.entry.words.now store.entry.records n }
{
    let link = if store.field(n, records::KIND) == Kind::Join as u32 {
        store.field(n, records::RIGHT)
    } else {
        0
    };
    Node {
        link,
        maximum: store.field(n, records::MAXIMUM),
    }
}

// Link and maximum of each record from the first on, as many as stand in the store and have a place in the slice; their count,
// below the store's records where one is too short. Linear in the count.
pub fn copy_nodes(nodes: &mut [Node], store: Store) -> usize
    ensures { Copies nodes.old nodes.new store.entry.words.now store.entry.records result }
{
    let stand = store.records.min(records::capacity(store.words));
    let many = nodes.len().min(stand);
    for i in 0..many {
        nodes[i] = stored(store, i);
    }
    many
}

// Node n of the slice, all 0 past its end. Constant time.
pub fn node_at(nodes: &[Node], n: usize) -> Node
    ensures { result ≡ node_in nodes.now n }
{
    nodes.get(n).copied().unwrap_or(Node {
        link: 0,
        maximum: 0,
    })
}

// What node n counts on a side, halved or not. Constant time.
pub fn counted_at(nodes: &[Node], n: usize, halved: bool) -> u32
    ensures { result ≡ counts halved (node_in nodes.now n).maximum }
{
    records_append::counted(halved, node_at(nodes, n).maximum)
}

// Half the maximum of the node that bucket b links to, rounded down. Constant time.
pub fn former_half(nodes: &[Node], b: usize) -> u32
    ensures { result ≡ former_half_in nodes.now b }
{
    counted_at(nodes, node_at(nodes, b).link as usize, true)
}
