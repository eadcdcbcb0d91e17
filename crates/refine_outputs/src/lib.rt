// The further clauses of outputs that were defined before old buckets were linked anew. Every promise is the rule itself,
// carried out as far as there is room.
#![tactic(auto)]

ghost use Rattle.std.specs.Prelude.{◌≡◌, List, map, reverse, ◌≤◌, length, take};
ghost use Rattle.rules.specs.Lists.{in_turn};
ghost use Rattle.rules.specs.Records.{Record, outputs};
ghost use Rattle.rules.specs.Totalizer.{Arena};
ghost use Rattle.rules.specs.Refinement.{former_half, extend_bucket};
ghost use Rattle.records.specs.Carries.{St, st, at, after, Carries, Steps};
ghost use Rattle.refine_outputs.specs.Old.{extend_each, extend_at};

use records::{Marks, Store};

// The further clauses of record i where it is an output of the node. A find for each output asked for, two for each clause.
fn extend_record(
    store: &mut [u32],
    clauses: &mut [i32],
    m: Marks,
    node: u32,
    most: u32,
    i: usize,
) -> Option<Marks>
    ensures { Steps (st store.old clauses.old (at m)) (st store.new clauses.new (after result)) (extend_at node most i) }
{
    let before = Store {
        words: store,
        records: m.records,
    };
    if !before.is_output(i) || before.output_node(i) != node {
        return Some(m);
    }
    let v = before.output_value(i);
    let o = before.output_number(i);
    totalizer_define::extend(store, clauses, m, node, most, v, o)
}

// The further clauses of each output of the node among the old records, in record order: those of its pairs whose b exceeds
// `most`. A pass over the old records.
fn extend_bucket(
    store: &mut [u32],
    clauses: &mut [i32],
    m: Marks,
    old: usize,
    node: u32,
    most: u32,
) -> Option<Marks>
    ensures { (e : St) (t : Arena) → Carries e (st store.old clauses.old (at m)) t → old ≤ length t.records →
        Carries e (st store.new clauses.new (after result)) (extend_each node most (take old t.records) t) }
{
    let mut marks = m;
    for i in 0..old {
        marks = extend_record(store, clauses, marks, node, most, i)?;
    }
    Some(marks)
}

// The further clauses of the outputs of the buckets, from the last bucket to the first. A pass over the old records for each
// bucket, at most 20.
pub fn extend_buckets(
    store: &mut [u32],
    clauses: &mut [i32],
    m: Marks,
    old: usize,
    buckets: &[u32],
    halves: &[u32],
) -> Option<Marks>
    ensures { (e : St) (t : Arena) (before : List Record) → Carries e (st store.old clauses.old (at m)) t → old ≤ length t.records →
        outputs (take old t.records) ≡ outputs before → halves.now ≡ map (former_half before) buckets.now →
        Carries e (st store.new clauses.new (after result)) (in_turn (extend_bucket before) t (reverse buckets.now)) }
{
    let mut marks = m;
    for (&node, &most) in buckets.iter().rev().zip(halves.iter().rev()) {
        marks = extend_bucket(store, clauses, marks, old, node, most)?;
    }
    Some(marks)
}
