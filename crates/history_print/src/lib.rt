// Numbers, words, states and digests, written to a writer. A write that fails ends the printing with its error, and no other error comes.
#![tactic(auto)]

ghost use Rattle.std.specs.Prelude.{◌≤◌, length};
ghost use Rattle.std.specs.Iterator.{IsFinite};

use rules::{Refusal, State};
use std::io;
use std::io::Write;

// A number behind a space.
pub fn number<W: Write>(out: &mut W, n: u64) -> io::Result<()> {
    write!(out, " {n}")
}

// A refusal: r and its number.
pub fn refused<W: Write>(out: &mut W, n: u32) -> io::Result<()> {
    write!(out, " r{n}")
}

// The number that a call answers, or its refusal.
pub fn answer<W: Write>(out: &mut W, a: Result<u64, Refusal>) -> io::Result<()> {
    match a {
        Ok(n) => number(out, n),
        Err(refusal) => refused(out, refusal.number()),
    }
}

// The number of a refusal, 0 for none, as C has it. Constant time.
pub fn refusal(a: Result<(), Refusal>) -> u64 {
    a.err().map_or(0, |refusal| u64::from(refusal.number()))
}

// What parts one group of numbers from the next.
pub fn bar<W: Write>(out: &mut W) -> io::Result<()> {
    out.write_all(b" |")
}

pub fn end_line<W: Write>(out: &mut W) -> io::Result<()> {
    out.write_all(b"\n")
}

// Words, as they are. Linear in them.
pub fn words<W: Write>(out: &mut W, s: &[u32]) -> io::Result<()> {
    for w in s {
        number(out, u64::from(*w))?;
    }
    Ok(())
}

// Clause words, each as its literal's word; by index, since `numbers` alone reads them. Linear in them.
pub fn literals<W: Write>(out: &mut W, c: &[i32]) -> io::Result<()> {
    for i in 0..c.len() {
        number(out, u64::from(numbers::word_at(c, i)))?;
    }
    Ok(())
}

// A digest with one more word. Constant time.
pub fn digest_with(h: u64, w: u32) -> u64 {
    (16777619 * (h % 4294967291) + u64::from(w)) % 4294967291
}

// The digest of words. Linear in them.
pub fn digest_of<I: Iterator<Item = u32>>(words: I) -> u64
    requires can { I.can_next words }
    requires ends { IsFinite (I.remaining words) }
{
    words.fold(0, digest_with)
}

// How many words there are, and their digest. Linear in them.
pub fn digest_words<W: Write>(out: &mut W, s: &[u32]) -> io::Result<()> {
    number(out, s.len() as u64)?;
    number(out, digest_of(s.iter().copied()))
}

// How many clause words there are, and the digest of their literals' words, by index as above. Linear in them.
pub fn digest_literals<W: Write>(out: &mut W, c: &[i32]) -> io::Result<()> {
    number(out, c.len() as u64)?;
    number(out, digest_of((0..c.len()).map(|i| numbers::word_at(c, i))))
}

// How many words the used records take, all of the store where there are fewer; of the words no record is read, so it takes no
// `Store`. Constant time.
pub fn used_words(s: &[u32], records: usize) -> usize
    ensures { result ≤ length s.now }
{
    records.saturating_mul(records::WORDS).min(s.len())
}

// How many of the clause words are used, all where the mark lies past them. Constant time.
pub fn used_literals(c: &[i32], words: usize) -> usize
    ensures { result ≤ length c.now }
{
    words.min(c.len())
}

// Digests of all that is lent. Linear in it.
pub fn lent<W: Write>(
    out: &mut W,
    s: State,
    store: &[u32],
    clauses: &[i32],
    work: &[u32],
) -> io::Result<()> {
    let (records, other_words) = store.split_at(used_words(store, s.records));
    let (literals, other_literals) = clauses.split_at(used_literals(clauses, s.words));
    bar(out)?;
    digest_words(out, records)?;
    digest_words(out, other_words)?;
    bar(out)?;
    digest_literals(out, literals)?;
    digest_literals(out, other_literals)?;
    bar(out)?;
    digest_words(out, work)
}

// Every field of a state. Constant time.
pub fn state<W: Write>(out: &mut W, s: State) -> io::Result<()> {
    number(out, u64::from(s.inputs))?;
    number(out, s.sum)?;
    number(out, s.set)?;
    number(out, s.built)?;
    number(out, s.records as u64)?;
    number(out, s.words as u64)?;
    number(out, s.clauses as u64)?;
    number(out, u64::from(s.variables))?;
    number(out, u64::from(s.fresh))?;
    slots(out, &s.tares, s.tares_used)?;
    slots(out, &s.buckets, s.buckets_used)
}

// How many slots are used, these, then count and digest of the rest. Linear in the slots.
fn slots<W: Write>(out: &mut W, slots: &[u32], used: u32) -> io::Result<()> {
    let (taken, free) = slots.split_at(slots.len().min(used as usize));
    bar(out)?;
    number(out, u64::from(used))?;
    words(out, taken)?;
    digest_words(out, free)
}
