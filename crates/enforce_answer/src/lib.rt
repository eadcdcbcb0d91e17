// What enforce answers over a build that is well formed: a literal and the tares of the set bits, or a refusal.
#![tactic(auto)]

ghost use Rattle.std.specs.Prelude.{◌≡◌, ◌&&◌, List, ◌∷◌, ◌++◌, ℕ, ◌+◌, ◌≤◌, ◌<◌, eqb, leb, length, get_or, take, drop, ℤ};
ghost use Rattle.std.proofs.Math.Option.{some};
ghost use Rattle.rules.specs.Records.{leaf, node_at, word_literal};
ghost use Rattle.rules.specs.Build.{Build, build_of, root};
ghost use Rattle.rules.specs.Enforce.{set_tares, one_answer, root_answer, built_answer, enforce};
ghost use Rattle.laws.specs.Lists.Facts.{All};
ghost use Rattle.records_clauses.specs.Clauses.{buf};
ghost use Rattle.records_waiting.specs.Read.{Readable};
ghost use Rattle.enforce_answer.specs.Tares.{tare_step};
ghost use Rattle.enforce_answer.specs.Ends.{Ended};
ghost use Rattle.enforce_answer.specs.Stored.{Stored};

use records::Store;
use rules::{Refusal, State};

// How many tares the set bits of x have. Linear in the tares.
fn set_bits(tares: usize, x: u64) -> usize
    ensures by_index { (ts : List ℕ) → length ts ≡ tares → result ≡ length (set_tares ts x) }
    ensures within { result ≤ tares }
{
    let mut n: usize = 0;
    let mut y = x;
    for _i in 0..tares {
        n += (y % 2) as usize;
        y = y / 2;
    }
    n
}

// Where the lowest bit is set, the tare in the word before.
fn put_tare(scratch: &mut [i32], at: usize, t: u32, x: u64) -> usize
    requires { t < 2147483648 }
    ensures { buf scratch.new result ≡ tare_step (buf scratch.old at) t x }
{
    if x % 2 != 1 || at == 0 {
        return at;
    }
    numbers::put_signed(scratch, at - 1, 2 * t);
    at - 1
}

// The tares of the set bits of x, highest power first, in the words before `end`. Linear in the tares.
fn put_tares(scratch: &mut [i32], tares: &[u32], x: u64, end: usize)
    requires { (length tares.now ≤ 19) × All (λ t. t < 2147483648) tares.now }
    ensures { (from : ℕ) → end ≡ from + length (set_tares tares.now x) → end ≤ length scratch.old →
        scratch.new ≡ take from scratch.old ++ (set_tares tares.now x ++ drop end scratch.old) }
{
    let mut at = end;
    for (i, tare) in tares.iter().enumerate() {
        at = put_tare(scratch, at, *tare, x >> i);
    }
}

// A literal and the tares of the set bits of x as the answer: how many words it has, or refusal 7. Linear in the tares.
fn put_answer(scratch: &mut [i32], w: u32, tares: &[u32], x: u64) -> Result<usize, Refusal>
    requires { (length tares.now ≤ 19) × All (λ t. t < 2147483648) tares.now }
    ensures { Ended (some (word_literal w ∷ set_tares tares.now x)) scratch.old scratch.new result }
{
    let n = set_bits(tares.len(), x) + 1;
    if scratch.len() < n {
        return Err(Refusal::NoRoom);
    }
    numbers::put_signed(scratch, 0, w);
    put_tares(scratch, tares, x, n);
    Ok(n)
}

// The root: the first bucket, 0 where there is none, as in the rules. Constant time.
fn root(buckets: &[u32]) -> u32
    ensures { result ≡ get_or buckets.now 0 0 }
{
    match buckets {
        [first, ..] => *first,
        [] => 0,
    }
}

// The answer of one input at the set divisor. Linear in the records.
fn one_answer(store: Store, set: u64, scratch: &mut [i32], u: u64) -> Result<usize, Refusal>
    requires { 1 ≤ set }
    ensures { (b : Build) (x : ℤ) → Stored b store.entry.words.now store.entry.records → b.set ≡ set → (node_at b.arena.records 0).kind ≡ leaf x →
        Ended (some (one_answer b u)) scratch.old scratch.new result }
{
    if records_waiting::largest(store) as u64 / set <= u {
        return Ok(0);
    }
    let w = numbers::negated(totalizer_find::literal(store, 0, 1));
    put_answer(scratch, w, &[], 0)
}

// The answer at the root. Linear in the records.
fn root_answer(
    store: Store,
    top: u32,
    scratch: &mut [i32],
    tares: &[u32],
    u: u64,
) -> Result<usize, Refusal>
    requires { (length tares.now ≤ 19) × All (λ t. t < 2147483648) tares.now }
    ensures { (b : Build) → Stored b store.entry.words.now store.entry.records → b.tares ≡ tares.now → root b ≡ top →
        Ended (root_answer b u) scratch.old scratch.new result }
{
    let w = numbers::power(tares.len() as u32);
    let j = u / w;
    if store.maximum(top) as u64 <= j {
        return Ok(0);
    }
    let o = totalizer_find::find(store, top, (j + 1) as u32).ok_or(Refusal::NotEncoded)?;
    put_answer(scratch, numbers::negated(o), tares, w - 1 - u % w)
}

// Whether the weights' sum is within the bound and the divisor set is 1. Constant time.
fn all_within(sum: u64, set: u64, u: u64) -> bool
    ensures { result ≡ leb sum u && eqb set 1 }
{
    sum <= u && set == 1
}

// The answer by the build. Linear in the records.
fn built_answer(s: State, store: Store, scratch: &mut [i32], u: u64) -> Result<usize, Refusal>
    requires { Readable s store.words.now × (store.records ≡ s.records) }
    ensures { Ended (built_answer (build_of s store.entry.words.now) u) scratch.old scratch.new result }
{
    let most = records_waiting::largest(store) as u64;
    if s.built == 0 || s.set <= most {
        return Err(Refusal::NotEncoded);
    }
    let tares = &s.tares[..s.tares_used as usize];
    let top = root(&s.buckets[..s.buckets_used as usize]);
    root_answer(store, top, scratch, tares, u / (s.built / s.set))
}

// What enforce answers for a bound: how many words, which are the first of the scratch, or the refusal. Linear in the records.
pub fn answer(s: State, store: &[u32], scratch: &mut [i32], u: u64) -> Result<usize, Refusal>
    requires { Readable s store.now }
    ensures { Ended (enforce (build_of s store.now) u) scratch.old scratch.new result }
{
    if all_within(s.sum, s.set, u) {
        return Ok(0);
    }
    let store = Store {
        words: store,
        records: s.records,
    };
    match s.inputs {
        0 => Ok(0),
        1 => one_answer(store, s.set, scratch, u),
        _ => built_answer(s, store, scratch, u),
    }
}
