// Old buckets brought up to date in place: each linked, halved, to the one below, its maximum and height by rule.
#![tactic(auto)]

ghost use Rattle.std.specs.Prelude.{◌≡◌, List, is_some, map, ◌-◌, ◌≤◌, length, take, drop, replicate};
ghost use Rattle.rules.specs.Records.{Record};
ghost use Rattle.rules.specs.Refinement.{former_half};
ghost use Rattle.records.specs.Carries.{Reads};
ghost use Rattle.records.specs.Words.{put_record};
ghost use Rattle.refine_links.specs.Linked.{Links, Relinks};
ghost use Rattle.refine_links.specs.Patched.{with_right, bucket_words};

use records::{Fields, Kind, Store};

// What the record of a bucket holds: its right side, the bucket below or a dummy, stands halved.
#[derive(Clone, Copy)]
pub struct Bucket {
    pub left: u32,
    pub right: u32,
    pub maximum: u32,
    pub height: u32,
}

// The right link of a bucket lent, set to the bucket below; all other fields are kept. Constant time.
pub fn patch(b: &mut Bucket, below: u32)
    ensures { b.new ≡ with_right b.old below }
{
    b.right = below;
}

// The bucket, lent to `patch` and handed back. Constant time.
fn patched(mut b: Bucket, below: u32) -> Bucket
    ensures { result ≡ with_right b below }
{
    patch(&mut b, below);
    b
}

// The words of a bucket's record; nothing past the last whole record. Constant time.
fn put_bucket(store: &mut [u32], n: usize, b: Bucket)
    ensures { store.new ≡ put_record store.old n (bucket_words b) }
{
    records::put_record(
        store,
        n,
        Fields {
            kind: Kind::Join,
            a: b.left,
            b: b.right,
            c: 1,
            maximum: b.maximum,
            height: b.height,
        },
    );
}

// Bucket b linked, halved, to the one below; none, and nothing written, where its maximum or height does not fit a word.
// Constant time.
fn link(store: &mut [u32], records: usize, b: u32, below: u32) -> Option<()>
    ensures { Links store.old store.new records b below (is_some result) }
{
    let old = Store {
        words: store,
        records,
    };
    let left = old.left(b);
    let half = records_append::counted(true, old.maximum(below));
    let maximum = old.maximum(left).checked_add(half);
    let height = old.height(left).max(old.height(below)).checked_add(1);
    let renewed = Bucket {
        left,
        right: old.right(b),
        maximum: maximum?,
        height: height?,
    };
    put_bucket(store, b as usize, patched(renewed, below));
    Some(())
}

// The buckets from the last to the first, each linked to the one below it, the last to `below`; none, and stopped, where a
// maximum or height does not fit a word. A turn a bucket, at most 20.
pub fn relink(store: &mut [u32], records: usize, buckets: &[u32], below: u32) -> Option<()>
    ensures { Relinks store.old store.new records buckets.now below (is_some result) }
{
    let mut next = below;
    for &b in buckets.iter().rev() {
        link(store, records, b, next)?;
        next = b;
    }
    Some(())
}

// Half the maximum of the right link of bucket b. Constant time.
fn former_half(store: Store, b: u32) -> u32
    ensures { (rs : List Record) → Reads store.entry rs → result ≡ former_half rs b }
{
    store.maximum(store.right(b)) / 2
}

// Half the maximum of the right link of each bucket, before they are linked anew; other slots are 0. A turn a bucket, at most 20.
pub fn former_halves(store: Store, buckets: &[u32]) -> [u32; rules::MOST_BUCKETS]
    requires { length buckets.now ≤ 20 }
    ensures halves { (rs : List Record) → Reads store.entry rs → take (length buckets.now) result ≡ map (former_half rs) buckets.now }
    ensures rest { drop (length buckets.now) result ≡ replicate (20 - length buckets.now) 0 }
    ensures length { length result ≡ 20 }
{
    let mut halves = [0; rules::MOST_BUCKETS];
    for (i, &b) in buckets.iter().enumerate() {
        halves[i] = former_half(store, b);
    }
    halves
}
