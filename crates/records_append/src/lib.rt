// A record appended, of each kind, where there is room; else none.
#![tactic(auto)]

ghost use Rattle.std.specs.Prelude.{◌≡◌, List, ℕ, ◌+◌, ◌≤◌, ℤ, IfSome};
ghost use Rattle.rules.specs.Records.{Record, waiting, record_image, literal_word, leaf_node, dummy_node};
ghost use Rattle.rules.specs.Totalizer.{counts, joining, add, take_number};
ghost use Rattle.records.specs.Words.{fields};
ghost use Rattle.records.specs.Carries.{st, at, after, Steps, Makes, on_records, with_record, placed};
ghost use Rattle.records_append.specs.Fresh.{with_numbers};
ghost use Rattle.records_append.specs.Made.{made_node, made_marks};

use records::{Fields, Kind, Marks, Store};

// A record's place and the marks after it.
#[derive(Clone, Copy)]
pub struct Made {
    pub node: u32,
    pub marks: Marks,
}

// The words of a dummy; of any other record those that it does not set.
const DUMMY: Fields = Fields {
    kind: Kind::Dummy,
    a: 0,
    b: 0,
    c: 0,
    maximum: 0,
    height: 0,
};

// A record of these words. Constant time.
fn append(s: &mut [u32], m: Marks, x: Fields) -> Option<Made>
    ensures { (c : List ℤ) (r : Record) → record_image r ≡ fields x → Makes (st s.old c (at m)) (st s.new c (made_marks result)) (made_node result) (placed r) }
{
    let n = m.records;
    if records::capacity(s) <= n || records::MOST_PLACE < n {
        return None;
    }
    records::put_record(s, n, x);
    Some(Made {
        node: n as u32,
        marks: Marks {
            records: n + 1,
            ..m
        },
    })
}

// A leaf of the literal of this word. Constant time.
pub fn leaf(s: &mut [u32], m: Marks, w: u32) -> Option<Made>
    ensures { (c : List ℤ) (x : ℤ) → w ≡ literal_word x → Makes (st s.old c (at m)) (st s.new c (made_marks result)) (made_node result) (on_records (λ rs. add rs (leaf_node x))) }
{
    append(
        s,
        m,
        Fields {
            kind: Kind::Leaf,
            a: w,
            maximum: 1,
            ..DUMMY
        },
    )
}

// A dummy of maximum 0. Constant time.
pub fn dummy(s: &mut [u32], m: Marks) -> Option<Made>
    ensures { (c : List ℤ) → Makes (st s.old c (at m)) (st s.new c (made_marks result)) (made_node result) (on_records (λ rs. add rs dummy_node)) }
{
    append(s, m, DUMMY)
}

// What a side's maximum counts for: half, rounded down, through a halving. Constant time.
pub fn counted(half: bool, x: u32) -> u32
    ensures { result ≡ counts half x }
{
    if half { x / 2 } else { x }
}

// A join of two nodes, the right one halved or not, its maximum and height by rule. Constant time.
pub fn join(s: &mut [u32], m: Marks, half: bool, l: u32, r: u32) -> Option<Made>
    ensures { (c : List ℤ) → Makes (st s.old c (at m)) (st s.new c (made_marks result)) (made_node result) (on_records (λ rs. add rs (joining rs half l r))) }
{
    let store = Store {
        words: s,
        records: m.records,
    };
    let right = counted(half, store.maximum(r));
    let maximum = store.maximum(l).checked_add(right)?;
    let height = store.height(l).max(store.height(r)).checked_add(1)?;
    append(
        s,
        m,
        Fields {
            kind: Kind::Join,
            a: l,
            b: r,
            c: u32::from(half),
            maximum,
            height,
        },
    )
}

// So many fresh numbers are taken. Constant time.
pub fn numbers(m: Marks, many: u32) -> Option<Marks>
    ensures by_index { (s : List ℕ) (c : List ℤ) → Steps (st s c (at m)) (st s c (after result)) (with_numbers many) }
    ensures within { IfSome result (λ _. m.fresh + many ≤ 1000000001) }
{
    let fresh = m.fresh.checked_add(many)?;
    if rules::MOST_FRESH < fresh {
        return None;
    }
    Some(Marks { fresh, ..m })
}

// Output v of a node with the next number. Constant time.
pub fn output(s: &mut [u32], m: Marks, node: u32, v: u32) -> Option<Marks>
    ensures { (c : List ℤ) → Steps (st s.old c (at m)) (st s.new c (after result)) (take_number node v) }
{
    if rules::MOST_VARIABLE < m.fresh {
        return None;
    }
    let made = append(
        s,
        m,
        Fields {
            kind: Kind::Output,
            a: node,
            b: v,
            c: 2 * m.fresh,
            ..DUMMY
        },
    )?;
    numbers(made.marks, 1)
}

// A waiting entry. Constant time.
pub fn waiting(s: &mut [u32], m: Marks, node: u32, weight: u32) -> Option<Marks>
    ensures { (c : List ℤ) → Steps (st s.old c (at m)) (st s.new c (after result)) (with_record (waiting (record { node = node; weight = weight }))) }
{
    let made = append(
        s,
        m,
        Fields {
            kind: Kind::Waiting,
            a: node,
            b: weight,
            ..DUMMY
        },
    )?;
    Some(made.marks)
}
