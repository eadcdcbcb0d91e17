// Where an encode begins: the nodes and outputs of a state, with what waits seen as free words; and what a build or a refinement
// hands on.
#![tactic(auto)]

ghost use Rattle.std.specs.Prelude.{◌≡◌, true, not, List, ◌++◌, map, length};
ghost use Rattle.rules.specs.Records.{Record, Entry, waiting, waits};
ghost use Rattle.laws.specs.Lists.Facts.{All};
ghost use Rattle.records.specs.Carries.{Reads};
ghost use Rattle.build_begin.specs.Named.{marks_at};

use records::{Marks, Store};
use rules::State;

// The marks after a build or a refinement, where its queue begins in the work words, and its tares and buckets, arrays with a
// count as a `State` of the C interface has them.
#[derive(Clone, Copy)]
pub struct Structure {
    pub marks: Marks,
    pub head: usize,
    pub tares: [u32; rules::MOST_TARES],
    pub tares_used: u32,
    pub buckets: [u32; rules::MOST_BUCKETS],
    pub buckets_used: u32,
}

// How many records stand before the waiting ones, which are last. Linear in the records.
pub fn before_waiting(store: Store) -> usize
    ensures { (rs : List Record) (es : List Entry) → Reads store.entry (rs ++ map waiting es) → All (λ x. not (waits x) ≡ true) rs → result ≡ length rs }
{
    (0..store.records)
        .find(|&i| store.is_waiting(i))
        .unwrap_or(store.records)
}

// The marks of a state whose waiting entries begin at record n. Constant time.
pub fn marks_at(s: State, n: usize) -> Marks
    ensures { result ≡ marks_at s n }
{
    Marks {
        records: n,
        words: s.words,
        fresh: s.fresh,
        clauses: s.clauses,
    }
}
