// Whether the used words of a store are the image of records. Any words are taken.
#![tactic(auto)]

ghost use Rattle.std.specs.Prelude.{◌≡◌, ◌≤◌, ◌*◌, length};
ghost use Rattle.rules.specs.Records.{records_of};
ghost use Rattle.rules.specs.WellFormed.{kinds_known};
ghost use Rattle.records.specs.Words.{kind_word};
ghost use Rattle.check_kinds.specs.Words.{kind_known, known_at};

use records::{Fields, Kind, Store};

// Whether the six words are those of a record. Constant time.
#[tactic(auto, unfolding(crate::specs::Words::kind_known, crate::specs::Words::zeros))]
fn kind_known(f: Fields) -> bool
    ensures { result ≡ kind_known (kind_word f.kind) f.a f.b f.c f.maximum f.height }
{
    match f.kind {
        Kind::Leaf => f.a != 1 && f.b == 0 && f.c == 0,
        Kind::Join => f.c <= 1,
        Kind::Dummy => f.a == 0 && f.b == 0 && f.c == 0,
        Kind::Output => f.c % 2 == 0 && f.maximum == 0 && f.height == 0,
        Kind::Waiting => f.c == 0 && f.maximum == 0 && f.height == 0,
    }
}

// Whether the words of record i are those of a record. Constant time.
#[tactic(auto, unfolding(crate::specs::Words::known_at, crate::specs::Words::words_known))]
fn known_at(store: Store, i: usize) -> bool
    ensures { result ≡ known_at store.entry.words.now store.entry.records i }
{
    let Some(kind) = Kind::of(store.field(i, records::KIND)) else {
        return false;
    };
    let f = Fields {
        kind,
        a: store.field(i, records::A),
        b: store.field(i, records::B),
        c: store.field(i, records::C),
        maximum: store.field(i, records::MAXIMUM),
        height: store.field(i, records::HEIGHT),
    };
    store.field(i, records::ROLE) == 0 && store.field(i, records::INDEX) == 0 && kind_known(f)
}

// Whether the kinds of all records are known. Linear in the records.
pub fn kinds_known(store: Store) -> bool
    ensures { 8 * store.entry.records ≤ length store.entry.words.now → result ≡ kinds_known (records_of store.entry.words.now store.entry.records) }
{
    (0..store.records).all(|i| known_at(store, i))
}
