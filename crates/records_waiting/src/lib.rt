// What waits among the records: whether something does, and the largest weight.
#![tactic(auto)]

ghost use Rattle.std.specs.Prelude.{◌≡◌, List};
ghost use Rattle.rules.specs.Records.{Record, entries};
ghost use Rattle.rules.specs.Build.{largest, some_wait};
ghost use Rattle.records.specs.Carries.{Reads};

use records::Store;

// The largest waiting weight, 0 where nothing waits. Linear in the records.
pub fn largest(store: Store) -> u32
    ensures { (rs : List Record) → Reads store.entry rs → result ≡ largest (entries rs) }
{
    (0..store.records)
        .map(|i| store.entry_weight(i))
        .max()
        .unwrap_or(0)
}

// Whether something waits. Linear in the records.
pub fn some_wait(store: Store) -> bool
    ensures { (rs : List Record) → Reads store.entry rs → result ≡ some_wait (entries rs) }
{
    (0..store.records).any(|i| store.is_waiting(i))
}
