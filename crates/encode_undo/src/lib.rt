// What an encode may overwrite, set aside in the work slice before it begins and put back where the room ended: the waiting records,
// and the records of the buckets.
#![tactic(auto)]

ghost use Rattle.std.specs.Prelude.{◌≡◌, List, ℕ, ◌+◌, ◌*◌, ◌≤◌, length, take};
ghost use Rattle.laws.specs.Lists.Facts.{All};
ghost use Rattle.encode_undo.specs.Copies.{copied, Saves, Restores};
ghost use Rattle.encode_undo.specs.Aside.{Roomy, Aside, Kept};

use rules::State;

// Where the words of the waiting records stand in the work slice.
const WAITING: usize = 0;

// Where those of the buckets' records do, behind at most 256 waiting records.
const BUCKETS: usize = records::WORDS * rules::MOST_INPUTS;

// n words of one slice, from a on, over those of another from b on. Linear in the words. Word by word: of `copy_from_slice` the
// compiler makes a call of memmove, which the library for C would then need from outside.
fn copy(from: &[u32], a: usize, to: &mut [u32], b: usize, n: usize)
    requires { (a + n ≤ length from.now) × (b + n ≤ length to.old) }
    ensures { to.new ≡ copied from.now a to.old b n }
{
    for i in 0..n {
        records_words::put(to, b + i, from[a + i]);
    }
}

// The words of each bucket's record to the work words, in order. A copy a bucket, at most 20.
fn save_buckets(store: &[u32], work: &mut [u32], buckets: &[u32])
    requires { (length buckets.now ≤ 20) × (2208 ≤ length work.old) × All (λ b. 8 * b + 8 ≤ length store.now) buckets.now }
    ensures { Saves store.now work.old work.new buckets.now (length buckets.now) }
{
    for (i, bucket) in buckets.iter().enumerate() {
        copy(
            store,
            records::WORDS * (*bucket as usize),
            work,
            BUCKETS + records::WORDS * i,
            records::WORDS,
        );
    }
}

// The words of the buckets as they were saved. A copy a bucket, at most 20.
// A loop of its own beside that of save_buckets: each is one copy, and one loop told which way to go would be longer than both.
fn restore_buckets(store: &mut [u32], work: &[u32], buckets: &[u32])
    requires { (length buckets.now ≤ 20) × (2208 ≤ length work.now) × All (λ b. 8 * b + 8 ≤ length store.old) buckets.now }
    ensures { Restores store.old store.new work.now buckets.now (length buckets.now) }
{
    for (k, bucket) in buckets.iter().enumerate() {
        copy(
            work,
            BUCKETS + records::WORDS * k,
            store,
            records::WORDS * (*bucket as usize),
            records::WORDS,
        );
    }
}

// The words of the waiting records, from record n on, and of the buckets copied to the work slice. Linear in the words copied.
pub fn set_aside(s: State, store: &[u32], work: &mut [u32], n: usize)
    requires { Roomy s store.now work.old n }
    ensures { Aside s store.now work.new n × (length work.new ≡ length work.old) }
{
    copy(
        store,
        records::WORDS * n,
        work,
        WAITING,
        records::WORDS * (s.records - n),
    );
    save_buckets(store, work, &s.buckets[..s.buckets_used as usize]);
}

// Those words copied back to the store. Linear in the words copied.
pub fn put_back(s: State, store: &mut [u32], work: &[u32], n: usize)
    requires { Roomy s store.old work.now n }
    ensures { ((o : List ℕ) → Aside s o work.now n → Kept s o store.old n → take (8 * s.records) store.new ≡ take (8 * s.records) o) × (length store.new ≡ length store.old) }
{
    restore_buckets(store, work, &s.buckets[..s.buckets_used as usize]);
    copy(
        work,
        WAITING,
        store,
        records::WORDS * n,
        records::WORDS * (s.records - n),
    );
}
