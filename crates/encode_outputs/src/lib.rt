// What an encode appends last: the root outputs of its range, then what waits.
#![tactic(auto)]

ghost use Rattle.std.specs.Prelude.{◌≡◌, IfSome, List, ◌+◌, ◌≤◌, ◌<◌, get_or, ℤ};
ghost use Rattle.rules.specs.Lists.{rising};
ghost use Rattle.rules.specs.Records.{Record};
ghost use Rattle.rules.specs.Build.{Build};
ghost use Rattle.rules.specs.Encode.{encode_outputs};
ghost use Rattle.records.specs.Carries.{St, st, at, after, Fits, Carries, Steps, Reads};
ghost use Rattle.build_begin.specs.Answer.{structure_marks};
ghost use Rattle.build_begin.specs.Named.{with_marks, Slots};
ghost use Rattle.encode_outputs.specs.Values.{values, outputs_of, all_defined};
ghost use Rattle.encode_outputs.specs.Taken.{Near, entries_at, with_waiting, whole};

use build_begin::Structure;
use records::{Marks, Store};

// A range of bounds: lo to end - 1. A type of its own, since std's Range is not Copy and this one is handed on by value.
#[derive(Clone, Copy)]
pub struct Range {
    pub lo: u64,
    pub end: u64,
}

// Outputs of a node: the first value, and how many.
#[derive(Clone, Copy)]
pub struct Outputs {
    pub first: u32,
    pub many: usize,
}

// Where waiting entries stand among words: the node and the weight of the first, how far on those of the next are, and how many.
#[derive(Clone, Copy)]
pub struct Places {
    pub node: usize,
    pub weight: usize,
    pub apart: usize,
    pub many: usize,
}

// The root outputs of the range, those above the maximum skipped. Constant time.
pub fn values(most: u32, tares: u32, range: Range) -> Outputs
    requires { (tares ≤ 19) × (range.lo < range.end) }
    ensures { (rising result.many result.first ≡ values most tares range.lo range.end) × (result.first + result.many ≤ 4294967296) }
{
    let w = numbers::power(tares);
    let low = range.lo / w;
    if most as u64 <= low {
        return Outputs { first: 1, many: 0 };
    }
    let high = ((range.end - 1) / w + 1).min(most as u64);
    Outputs {
        first: (low + 1) as u32,
        many: (high - low) as usize,
    }
}

// The root outputs of the range, defined. A define for each.
fn encode_outputs(
    store: &mut [u32],
    clauses: &mut [i32],
    z: Structure,
    range: Range,
) -> Option<Marks>
    requires { (z.tares_used ≤ 19) × (range.lo < range.end) }
    ensures { Steps (st store.old clauses.old (at z.marks)) (st store.new clauses.new (after result)) (outputs_of (get_or z.buckets 0 0) z.tares_used range.lo range.end) }
{
    let root = z.buckets[0];
    let used = Store {
        words: store,
        records: z.marks.records,
    };
    let v = values(used.maximum(root), z.tares_used, range);
    totalizer_define::define_from(store, clauses, z.marks, root, v.first, v.many)
}

// Whether these outputs of the node are defined. A find for each.
pub fn all_defined(store: Store, node: u32, vs: Outputs) -> bool
    requires { vs.first + vs.many ≤ 4294967296 }
    ensures { (rs : List Record) → Reads store.entry rs → result ≡ all_defined rs node (rising vs.many vs.first) }
{
    (0..vs.many).all(|i| totalizer_find::find(store, node, vs.first + i as u32).is_some())
}

// The waiting entries of the work words behind the records. Linear in the entries.
fn append_waiting(store: &mut [u32], m: Marks, work: &[u32], queue: Places) -> Option<Marks>
    requires { Near queue }
    ensures { (c : List ℤ) → Steps (st store.old c (at m)) (st store.new c (after result)) (with_waiting (entries_at work.now queue)) }
{
    let mut n = m;
    for k in 0..queue.many {
        let on = k * queue.apart;
        n = records_append::waiting(
            store,
            n,
            records_words::word(work, queue.node + on),
            records_words::word(work, queue.weight + on),
        )?;
    }
    Some(n)
}

// The root outputs of the range defined, and then what waits appended. A define for each output, linear in the entries.
pub fn completed(
    store: &mut [u32],
    clauses: &mut [i32],
    work: &[u32],
    z: Structure,
    range: Range,
    queue: Places,
) -> Option<Structure>
    requires { (z.tares_used ≤ 19) × (range.lo < range.end) × Near queue }
    ensures marks { IfSome result (λ y. y ≡ with_marks z y.marks) }
    ensures carries { (e : St) (p : Build) → Carries e (st store.old clauses.old (at z.marks)) p.arena →
        (Fits e p.arena → Slots z p × (entries_at work.now queue ≡ p.queue)) →
        Carries e (st store.new clauses.new (structure_marks result)) (whole (encode_outputs p range.lo range.end)) }
{
    let n = encode_outputs(store, clauses, z, range)?;
    let marks = append_waiting(store, n, work, queue)?;
    Some(Structure { marks, ..z })
}
