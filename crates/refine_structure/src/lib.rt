// Refinement: new lower buckets, the old ones linked over them in place, and the outputs that were defined earlier extended.
#![tactic(auto)]

ghost use Rattle.std.specs.Prelude.{◌≡◌, IfSome, List, ◌++◌, ℕ, ◌+◌, ◌^◌, ◌≤◌, ◌<◌, length, take, ℤ};
ghost use Rattle.rules.specs.Lists.{rising, padded};
ghost use Rattle.rules.specs.Digits.{top_bit};
ghost use Rattle.rules.specs.Records.{Record};
ghost use Rattle.rules.specs.Totalizer.{Arena};
ghost use Rattle.rules.specs.Build.{largest, build_of};
ghost use Rattle.laws.specs.Lists.Facts.{All};
ghost use Rattle.records.specs.Carries.{Held, st, at, after, Makes};
ghost use Rattle.build_line.specs.Work.{line, members_from, made_in};
ghost use Rattle.build_queue.specs.Queued.{Queued};
ghost use Rattle.build_tower.specs.Answer.{segment_head, segment_marks, segment_used};
ghost use Rattle.build_tower.specs.Rule.{tower};
ghost use Rattle.build_begin.specs.Answer.{structure_marks};
ghost use Rattle.refine_structure.specs.Refined.{added, spare, Spans, renew, Renewable, Renews, Refinable, Refines};

use build_begin::Structure;
use build_tower::{Plan, Segment};
use records::{Marks, Store};
use rules::State;

// Tares with the numbers from a first one on, below those of a state. A turn a tare.
fn new_tares(first: u32, many: usize, old: &[u32]) -> [u32; rules::MOST_TARES]
    requires { (many + length old.now ≤ 19) × (first + many < 4294967296) }
    ensures { result ≡ padded 0 19 (rising many first ++ old.now) }
{
    let fresh = build_arrays::fresh_tares(first, many);
    build_arrays::append(fresh, many, old)
}

// The buckets linked anew in place, the last to `below`, and their outputs among the old records extended; none where the room
// ends. A pass over the old records for each bucket, and the defines of the further clauses.
fn renew(
    store: &mut [u32],
    clauses: &mut [i32],
    m: Marks,
    old: usize,
    buckets: &[u32],
    below: u32,
    halves: &[u32],
) -> Option<Marks>
    ensures { (s₀ : List ℕ) (m₀ : Held) (before : List Record) (d : ℕ) (t : Arena) →
        Renewable buckets.now (st s₀ clauses.old m₀) (st store.old clauses.old (at m)) old below halves.now before d t →
        Renews buckets.now (st s₀ clauses.old m₀) (st store.new clauses.new (after result)) (renew before buckets.now d t) }
{
    refine_links::relink(store, m.records, buckets, below)?;
    refine_outputs::extend_buckets(store, clauses, m, old, buckets, halves)
}

// The tower of the powers that a refinement adds, and of the tares that have no bucket. As the queue and the buckets grow.
fn segment(
    s: State,
    store: &mut [u32],
    work: &mut [u32],
    m: Marks,
    h: usize,
    tares: &[u32],
) -> Option<Segment>
    requires { Queued work.old h × (1 ≤ s.set) × Spans s × (19 ≤ length tares.now) × (m.fresh + added s ≤ 1000000001 → All (λ t. t < 2147483648) tares.now) }
    ensures { ((c : List ℤ) → largest (line work.old h) < 2 ^ (top_bit s.built + spare s) →
        Makes (st store.old c (at m)) (st store.new c (segment_marks result)) (made_in work.new (segment_used result), line work.new (segment_head result))
        (tower (added s) s.set (top_bit s.set) (take (added s + spare s) tares.now) (members_from work.old 0 (top_bit s.built + spare s)) (line work.old h))) ×
        (length work.new ≡ length work.old) × (segment_used result ≤ added s + spare s) × (segment_head result ≤ 512) }
{
    let p = numbers::top_bit(s.set) as usize;
    let end = numbers::top_bit(s.built) as usize;
    let many = end - p;
    let own = s.tares_used as usize + 1 - s.buckets_used as usize;
    let plan = Plan {
        divisor: s.set,
        tares: &tares[..many + own],
        low: p,
        end: end + own,
        taken: many as u32,
    };
    build_tower::tower(store, work, m, h, plan)
}

// The refinement of a build whose queue is the line at h of the work words. As the tower of the new buckets, then a pass over the
// old records for each old bucket, and the defines of the further clauses.
pub fn merge_structures(
    s: State,
    store: &mut [u32],
    clauses: &mut [i32],
    work: &mut [u32],
    m: Marks,
    h: usize,
) -> Option<Structure>
    requires { Refinable s store.old clauses.old work.old m h }
    ensures { Refines (build_of s store.old) (st store.old clauses.old (at m)) (st store.new clauses.new (structure_marks result)) work.new result × (length work.new ≡ length work.old) × IfSome result (λ z. (z.head ≤ 512) × (z.tares_used ≤ 19) × (z.buckets_used ≤ 20)) }
{
    let many = numbers::top_bit(s.built) - numbers::top_bit(s.set);
    let tares = new_tares(m.fresh, many as usize, &s.tares[..s.tares_used as usize]);
    let used = s.buckets_used as usize;
    let above = &s.buckets[..used];
    let old = Store {
        words: store,
        records: m.records,
    };
    let halves = refine_links::former_halves(old, above);
    let t = segment(s, store, work, m, h, &tares)?;
    let made = &work[build_line::MADE_END - t.used..build_line::MADE_END];
    let below = made.first().copied().unwrap_or(0);
    let halves = &halves[..used];
    let marks = renew(store, clauses, t.marks, m.records, above, below, halves)?;
    Some(Structure {
        marks,
        head: t.head,
        tares,
        tares_used: s.tares_used + many,
        buckets: build_arrays::append(s.buckets, used, made),
        buckets_used: s.buckets_used + t.used as u32,
    })
}
