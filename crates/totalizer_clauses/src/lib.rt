// The pairs of an output and their clauses: counted, asked through a halving, written.
#![tactic(auto)]

ghost use Rattle.std.specs.Prelude.{◌≡◌, ℕ, ◌+◌, ◌-◌, ◌<◌, ◌≤◌, min, pos};
ghost use Rattle.rules.specs.Records.{literal_word};
ghost use Rattle.rules.specs.Totalizer.{asks, pairs_from, clause, write, take_number};
ghost use Rattle.records.specs.Carries.{st, at, after, Steps};
ghost use Rattle.records_clauses.specs.Clauses.{with_clause};
ghost use Rattle.totalizer_clauses.specs.Spread.{Spread};

use records::{Marks, Store};

// The sides of a join: its two nodes, and whether the right one is halved.
#[derive(Clone, Copy)]
pub struct Sides {
    pub half: bool,
    pub left: u32,
    pub right: u32,
}

// Pairs that add to a value: the first a, and how many.
#[derive(Clone, Copy)]
pub struct Pairs {
    pub lo: u32,
    pub many: usize,
}

// The pairs that add to v within the maxima of two sides. Constant time.
pub fn spread(store: Store, sides: Sides, v: u32) -> Pairs
    ensures { Spread store.entry.words.now store.entry.records sides.half sides.left sides.right v result.lo result.many }
{
    let right = records_append::counted(sides.half, store.maximum(sides.right));
    let left = store.maximum(sides.left);
    let lo = v.saturating_sub(right);
    Pairs {
        lo,
        many: (v.min(left) as usize + 1).saturating_sub(lo as usize),
    }
}

// Those of the pairs that add to v whose b is above `most`: the first ones. Constant time.
pub fn further(pairs: Pairs, v: u32, most: u32) -> Pairs
    ensures { result ≡ record { lo = pairs.lo; many = min pairs.many (v - most - pairs.lo) } }
{
    let above = v.saturating_sub(most).saturating_sub(pairs.lo);
    Pairs {
        many: pairs.many.min(above as usize),
        ..pairs
    }
}

// The value that a count b asks of its node, where it fits a word. Constant time.
#[tactic(auto, unfolding(rules::specs::Totalizer::asks))]
pub fn through(half: bool, b: u32) -> u32
    ensures { asks half b < 4294967296 → result ≡ asks half b }
{
    if half { b.saturating_mul(2) } else { b }
}

// The clause of one pair.
fn pair_clause(
    s: &[u32],
    c: &mut [i32],
    m: Marks,
    sides: Sides,
    a: u32,
    b: u32,
    o: u32,
) -> Option<Marks>
    ensures { (number : ℕ) → o ≡ literal_word (pos number) → asks sides.half b < 4294967296 → Steps (st s.now c.old (at m)) (st s.now c.new (after result)) (λ t. with_clause (clause t.records sides.half sides.left sides.right number (a, b)) t) }
{
    let store = Store {
        words: s,
        records: m.records,
    };
    let p = totalizer_find::side(store, sides.left, a);
    let q = totalizer_find::side(store, sides.right, through(sides.half, b));
    records_clauses::put_clause(c, m, p, q, o)
}

// The clauses of the pairs that add to v, a rising. Two finds for each.
pub fn write(
    s: &[u32],
    c: &mut [i32],
    m: Marks,
    sides: Sides,
    v: u32,
    pairs: Pairs,
    o: u32,
) -> Option<Marks>
    ensures { (number : ℕ) → o ≡ literal_word (pos number) → pairs.lo + pairs.many ≤ v + 1 → asks sides.half (v - pairs.lo) < 4294967296 → Steps (st s.now c.old (at m)) (st s.now c.new (after result)) (write sides.half sides.left sides.right number (pairs_from pairs.many pairs.lo v)) }
{
    let lo = pairs.lo as usize;
    let end = lo.saturating_add(pairs.many).min(v as usize + 1);
    let mut marks = m;
    for a in lo..end {
        let x = a as u32;
        marks = pair_clause(s, c, marks, sides, x, v - x, o)?;
    }
    Some(marks)
}

// The clauses of an output with the next number, and then that number taken. Two finds for each clause.
pub fn finish(
    s: &mut [u32],
    c: &mut [i32],
    m: Marks,
    node: u32,
    v: u32,
    sides: Sides,
    pairs: Pairs,
) -> Option<Marks>
    ensures { pairs.lo + pairs.many ≤ v + 1 → asks sides.half (v - pairs.lo) < 4294967296 → Steps (st s.old c.old (at m)) (st s.new c.new (after result)) (λ t. take_number node v (write sides.half sides.left sides.right t.fresh (pairs_from pairs.many pairs.lo v) t)) }
{
    if rules::MOST_VARIABLE < m.fresh {
        return None;
    }
    let written = write(s, c, m, sides, v, pairs, 2 * m.fresh)?;
    records_append::output(s, written, node, v)
}
