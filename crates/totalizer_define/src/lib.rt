// Output definition over lent records: an output asks its connections and a connection asks its node. Every promise is the
// rule itself, carried out as far as there is room.
#![tactic(auto)]

ghost use Rattle.std.specs.Prelude.{◌≡◌, ◌+◌, ◌-◌, ◌<◌, ◌≤◌, pos};
ghost use Rattle.rules.specs.Lists.{in_turn, rising};
ghost use Rattle.rules.specs.Records.{Output, literal_word};
ghost use Rattle.rules.specs.Totalizer.{asks, ask, ask_pair, pairs_from, define, define_output};
ghost use Rattle.rules.specs.Refinement.{extend};
ghost use Rattle.records.specs.Carries.{st, at, after, Steps};

use records::{Marks, Store};
use totalizer_clauses::{Pairs, Sides};

// The largest value that fits a word.
const MOST_VALUE: usize = u32::MAX as usize;

#[cycle(ask_pairs_define_by_resolve)]
fn define_by(
    s: &mut [u32],
    c: &mut [i32],
    m: Marks,
    node: u32,
    v: u32,
    height: u32,
) -> Option<Marks>
    ensures { Steps (st s.old c.old (at m)) (st s.new c.new (after result)) (λ t. define height t node v) }
{
    if height == 0 {
        return Some(m);
    }
    let store = Store {
        words: s,
        records: m.records,
    };
    if !store.is_join(node) || totalizer_find::find(store, node, v).is_some() {
        return Some(m);
    }
    let sides = Sides {
        half: store.halved(node),
        left: store.left(node),
        right: store.right(node),
    };
    let pairs = totalizer_clauses::spread(store, sides, v);
    // taken apart and put together: handed on as they come, they stand twice on the stack of each level
    let Marks {
        records,
        words,
        fresh,
        clauses,
    } = ask_pairs(s, c, m, sides, v, pairs, height - 1)?;
    let asked = Marks {
        records,
        words,
        fresh,
        clauses,
    };
    totalizer_clauses::finish(s, c, asked, node, v, sides, pairs)
}

// What the pairs that add to v use, a rising, left before right.
#[cycle(ask_pairs_define_by_resolve)]
fn ask_pairs(
    s: &mut [u32],
    c: &mut [i32],
    m: Marks,
    sides: Sides,
    v: u32,
    pairs: Pairs,
    height: u32,
) -> Option<Marks>
    requires { pairs.lo + pairs.many ≤ v + 1 }
    ensures { asks sides.half (v - pairs.lo) < 4294967296 → Steps (st s.old c.old (at m)) (st s.new c.new (after result)) (λ t. in_turn (ask_pair (define height) sides.half sides.left sides.right) t (pairs_from pairs.many pairs.lo v)) }
{
    let lo = pairs.lo as usize;
    let mut marks = m;
    for a in lo..lo + pairs.many {
        let x = a as u32;
        let left = resolve(s, c, marks, false, sides.left, x, height)?;
        marks = resolve(s, c, left, sides.half, sides.right, v - x, height)?;
    }
    Some(marks)
}

// A connection asks its node for the value that it stands for, skipping 0.
#[cycle(ask_pairs_define_by_resolve)]
fn resolve(
    s: &mut [u32],
    c: &mut [i32],
    m: Marks,
    half: bool,
    link: u32,
    x: u32,
    height: u32,
) -> Option<Marks>
    ensures { asks half x < 4294967296 → Steps (st s.old c.old (at m)) (st s.new c.new (after result)) (λ t. ask (define height) t link (asks half x)) }
{
    let y = totalizer_clauses::through(half, x);
    if y == 0 {
        Some(m)
    } else {
        define_by(s, c, m, link, y, height)
    }
}

// Output v of the node, with all that it uses. A find for each output asked for, two for each clause.
pub fn define(s: &mut [u32], c: &mut [i32], m: Marks, node: u32, v: u32) -> Option<Marks>
    ensures { Steps (st s.old c.old (at m)) (st s.new c.new (after result)) (λ t. define_output t node v) }
{
    let store = Store {
        words: s,
        records: m.records,
    };
    let height = store.height(node);
    define_by(s, c, m, node, v, height)
}

// Outputs of the node from a first value on, rising. A turn a value.
pub fn define_from(
    s: &mut [u32],
    c: &mut [i32],
    m: Marks,
    node: u32,
    first: u32,
    many: usize,
) -> Option<Marks>
    ensures { first + many ≤ 4294967296 → Steps (st s.old c.old (at m)) (st s.new c.new (after result)) (λ t. in_turn (λ t v. define_output t node v) t (rising many first)) }
{
    let from = first as usize;
    let end = from.saturating_add(many).min(MOST_VALUE + 1);
    let mut marks = m;
    for v in from..end {
        marks = define(s, c, marks, node, v as u32)?;
    }
    Some(marks)
}

// The further clauses of an output that was defined earlier: those of its pairs whose b exceeds `most`, after defining what
// they use. A find for each output asked for, two for each clause.
pub fn extend(
    s: &mut [u32],
    c: &mut [i32],
    m: Marks,
    node: u32,
    most: u32,
    v: u32,
    o: u32,
) -> Option<Marks>
    ensures { (w : Output) → v ≡ w.value → o ≡ literal_word (pos w.number) → Steps (st s.old c.old (at m)) (st s.new c.new (after result)) (λ t. extend node most t w) }
{
    let store = Store {
        words: s,
        records: m.records,
    };
    let sides = Sides {
        half: true,
        left: store.left(node),
        right: store.right(node),
    };
    let all = totalizer_clauses::spread(store, sides, v);
    let pairs = totalizer_clauses::further(all, v, most);
    let height = store.height(node);
    let asked = ask_pairs(s, c, m, sides, v, pairs, height)?;
    totalizer_clauses::write(s, c, asked, sides, v, pairs, o)
}
