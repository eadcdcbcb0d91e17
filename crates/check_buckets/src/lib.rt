// Tests of the buckets of a store. The promises speak of words that store records.
#![tactic(auto)]

ghost use Rattle.std.specs.Prelude.{◌≡◌, List};
ghost use Rattle.rules.specs.Lists.{all};
ghost use Rattle.rules.specs.Records.{Record, node_at};
ghost use Rattle.rules.specs.WellFormed.{halved_to, ends_in, linked};
ghost use Rattle.records.specs.Carries.{Reads};
ghost use Rattle.check_buckets.specs.Links.{left_low};

use records::Store;

// The largest left maximum: every input, and the tare.
const MOST_LEFT: u32 = (rules::MOST_INPUTS as u32) + 1;

// Whether node b is linked, halved, to c. Constant time.
fn halved_to(store: Store, b: u32, c: u32) -> bool
    ensures { (rs : List Record) → Reads store.entry rs → result ≡ halved_to c (node_at rs b).kind }
{
    store.halved(b) && store.right(b) == c
}

// Whether the last bucket is linked, halved, to a dummy where something waits, and to no dummy where nothing does. Constant
// time.
fn ends_in(store: Store, wait: bool, b: u32) -> bool
    ensures { (rs : List Record) → Reads store.entry rs → result ≡ ends_in rs wait (node_at rs b).kind }
{
    let dummy = store.is_dummy(store.right(b));
    if wait {
        store.halved(b) && dummy
    } else {
        store.is_join(b) && !dummy
    }
}

// Whether each bucket is linked as it should be. Linear in the buckets.
pub fn linked(store: Store, wait: bool, buckets: &[u32]) -> bool
    ensures { (rs : List Record) → Reads store.entry rs → result ≡ linked rs wait buckets.now }
{
    let Some(last) = buckets.last() else {
        return true;
    };
    buckets
        .windows(2)
        .all(|pair| halved_to(store, pair[0], pair[1]))
        && ends_in(store, wait, *last)
}

// Whether every bucket's left maximum is at most 257. Linear in the buckets.
pub fn lefts_low(store: Store, buckets: &[u32]) -> bool
    ensures { (rs : List Record) → Reads store.entry rs → result ≡ all (left_low rs) buckets.now }
{
    buckets
        .iter()
        .all(|b| store.maximum(store.left(*b)) <= MOST_LEFT)
}
