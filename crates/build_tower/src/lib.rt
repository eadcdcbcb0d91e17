// A tower of buckets: what a first build and a refinement have in common.
#![tactic(auto)]

ghost use Rattle.std.specs.Prelude.{◌≡◌, List, ◌++◌, map, ℕ, ◌+◌, ◌-◌, ◌^◌, ◌≤◌, ◌<◌, length, ℤ};
ghost use Rattle.rules.specs.Lists.{sort};
ghost use Rattle.rules.specs.Records.{Record, Entry, waiting};
ghost use Rattle.rules.specs.Build.{largest};
ghost use Rattle.rules.specs.Queue.{heavier};
ghost use Rattle.laws.specs.Lists.Facts.{All};
ghost use Rattle.records.specs.Carries.{st, at, Makes, Reads};
ghost use Rattle.build_line.specs.Work.{line, count_at, members_from, made_in};
ghost use Rattle.build_queue.specs.Queued.{Queued};
ghost use Rattle.build_tower.specs.Answer.{segment_head, segment_marks, segment_used};
ghost use Rattle.build_tower.specs.Rule.{tower};

use build_line::{COUNTS, PLACES};
use records::{Marks, Store};
use rules::MOST_BUCKETS;

// The marks, where the queue begins, and how many buckets were made, whose nodes stand at the end of the lent work words.
#[derive(Clone, Copy)]
pub struct Segment {
    pub marks: Marks,
    pub head: usize,
    pub used: usize,
}

// What a tower is built with: the divisor; its tares; its powers, from `low` to `end` - 1; and how many numbers are taken for
// new tares.
#[derive(Clone, Copy)]
pub struct Plan<'a> {
    pub divisor: u64,
    pub tares: &'a [u32],
    pub low: usize,
    pub end: usize,
    pub taken: u32,
}

// No bucket with a member. Constant time.
fn clear_counts(work: &mut [u32])
    requires { 13312 ≤ length work.old }
    ensures { ((k : ℕ) → k < 20 → count_at work.new k ≡ 0) × (length work.new ≡ length work.old) }
{
    work[COUNTS..COUNTS + MOST_BUCKETS].fill(0);
}

// The waiting records from one place on as a queue, and no bucket with a member. Each linear in the queue.
pub fn queued(store: Store, work: &mut [u32], from: usize) -> usize
    requires { (from ≤ store.records) × (store.records ≤ from + 256) × (13312 ≤ length work.old) }
    ensures { ((rs : List Record) (es : List Entry) → Reads store.entry (rs ++ map waiting es) → length rs ≡ from → line work.new result ≡ sort heavier es) × ((k : ℕ) → k < 20 → count_at work.new k ≡ 0) × (length work.new ≡ length work.old) × (result ≤ 512) }
{
    clear_counts(work);
    build_queue::enqueue(store, work, from)
}

// The numbers of the new tares taken, the queue at h run while it reaches the divisor, and the buckets made. As the queue and the
// buckets grow.
pub fn tower(store: &mut [u32], work: &mut [u32], m: Marks, h: usize, plan: Plan) -> Option<Segment>
    requires { Queued work.old h × (1 ≤ plan.divisor) × (plan.low ≤ plan.end) × (plan.end ≤ 20) × (m.fresh + plan.taken ≤ 1000000001 → All (λ t. t < 2147483648) plan.tares.now) }
    ensures { ((c : List ℤ) → largest (line work.old h) < 2 ^ plan.entry.end → Makes (st store.old c (at m)) (st store.new c (segment_marks result)) (made_in work.new (segment_used result), line work.new (segment_head result))
        (tower plan.entry.taken plan.entry.divisor plan.entry.low plan.entry.tares.now (members_from work.old 0 plan.entry.end) (line work.old h))) × (length work.new ≡ length work.old) × (plan.entry.low + segment_used result ≤ plan.entry.end) × (segment_head result ≤ 512) }
{
    let numbered = records_append::numbers(m, plan.taken)?;
    let Ok(gathered) = build_queue::gather(store, work, numbered, h, plan.divisor) else {
        return None;
    };
    let wait = gathered.head < PLACES;
    let made = build_buckets::buckets_over(
        store,
        work,
        gathered.marks,
        wait,
        plan.tares,
        plan.low,
        plan.end,
    )?;
    Some(Segment {
        marks: made.marks,
        head: gathered.head,
        used: made.used,
    })
}
