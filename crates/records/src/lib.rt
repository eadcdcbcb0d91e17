// Records in lent words: eight words to a record, for slices of any length. A read past the end is 0 and a write past the end does
// nothing.
#![tactic(auto)]

ghost use Rattle.std.specs.Prelude.{◌≡◌, ◌≢◌, List, MatchOption, ◌/◌, length, get_or};
ghost use Rattle.rules.specs.Records.{Record, unknown, node_at, left_link, right_link, waits};
ghost use Rattle.rules.specs.WellFormed.{is_leaf, is_dummy};
ghost use Rattle.laws.specs.Records.Places.{place};
ghost use Rattle.records.specs.Words.{kind_word, field_at, held_at, fields, put_record};
ghost use Rattle.records.specs.Readers.{is_join, is_halved, leaf_word, is_output, output_node, output_value, output_number, entry_node, entry_weight};
ghost use Rattle.records.specs.Carries.{Reads};

// The words of a record.
pub const WORDS: usize = 8;

// The kinds of records, each with the word that says it.
#[derive(Clone, Copy)]
pub enum Kind {
    // A holds its literal.
    Leaf = 1,
    // A and B hold its sides, C is 1 where the right one is halved.
    Join = 2,
    Dummy = 3,
    // A holds its node, B its value, C its number as a literal.
    Output = 4,
    // A holds its node, B its weight.
    Waiting = 5,
}

impl Kind {
    // The kind that a word says, if it says one. Constant time.
    pub fn of(word: u32) -> Option<Kind>
        ensures { MatchOption result ((kind : Kind) → kind_word kind ≢ word) (λ kind. kind_word kind ≡ word) }
    {
        match word {
            1 => Some(Kind::Leaf),
            2 => Some(Kind::Join),
            3 => Some(Kind::Dummy),
            4 => Some(Kind::Output),
            5 => Some(Kind::Waiting),
            _ => None,
        }
    }
}

// The place of the kind among the words of a record.
pub const KIND: usize = 0;

// The place of A.
pub const A: usize = 1;

// The place of B.
pub const B: usize = 2;

// The place of C.
pub const C: usize = 3;

// The place of a leaf's literal.
const LITERAL: usize = A;

// The place of a join's left side.
const LEFT: usize = A;

// The place of a join's right side.
pub const RIGHT: usize = B;

// The place of a join's halving.
const HALVED: usize = C;

// The place of an output's or a waiting entry's node.
pub const NODE: usize = A;

// The place of an output's value.
pub const VALUE: usize = B;

// The place of an output's number.
pub const NUMBER: usize = C;

// The place of a waiting entry's weight.
pub const WEIGHT: usize = B;

// The place of a node's maximum.
pub const MAXIMUM: usize = 4;

// The place of a node's height.
pub const HEIGHT: usize = 5;

// The place of a word that is 0 in every record.
pub const ROLE: usize = 6;

// The place of the last word, 0 in every record.
pub const INDEX: usize = 7;

// The last place that a word names.
pub const MOST_PLACE: usize = u32::MAX as usize;

// What of the lent memory is used: records of the store, words of the clause buffer, the next fresh number, clauses in all.
// Store, clauses and marks go through every step as three parameters: its promise names the words of each before and after, and
// a struct of the two slices would be taken apart and lent anew at each call.
#[derive(Clone, Copy)]
pub struct Marks {
    pub records: usize,
    pub words: usize,
    pub fresh: u32,
    pub clauses: usize,
}

// The words of a record by their places; the last two are 0. What a, b and c hold is said with each kind.
#[derive(Clone, Copy)]
pub struct Fields {
    pub kind: Kind,
    pub a: u32,
    pub b: u32,
    pub c: u32,
    pub maximum: u32,
    pub height: u32,
}

// How many whole records the words have room for. Constant time.
pub fn capacity(s: &[u32]) -> usize
    ensures { result ≡ length s.now / 8 }
{
    s.len() / WORDS
}

// The words of a store, of which so many records are used. Its readers take any words and any place. Where there is no such record
// they answer 0, as the rules' own readers of records do, and no Option: callers compare and add what they get, without a case
// for another kind. There is a reader for each word under the name that the rules give it, also where two differ in a place alone.
// That the words are records (`Reads`) stands in the promises and is no invariant: steps build a `Store` before it is known
// whether the room lasted, and a promise holds of every store that the words may be.
#[derive(Clone, Copy)]
pub struct Store<'a> {
    pub words: &'a [u32],
    pub records: usize,
}

impl Store<'_> {
    // Word k of record n of the first `records`, 0 where there is none. Constant time.
    pub fn field(self, n: usize, k: usize) -> u32
        ensures { result ≡ field_at self.entry.words.now self.entry.records n k }
    {
        if n < self.records && n < capacity(self.words) && k < WORDS {
            self.words[WORDS * n + k]
        } else {
            0
        }
    }

    // Word j of record n where it is of this kind, else 0.
    fn held(self, n: usize, kind: Kind, j: usize) -> u32
        ensures { result ≡ held_at self.entry.words.now self.entry.records n (kind_word kind) j }
    {
        if self.field(n, KIND) == kind as u32 {
            self.field(n, j)
        } else {
            0
        }
    }

    // Whether a node stands at place n. Constant time.
    pub fn is_node(self, n: u32) -> bool
        ensures { (rs : List Record) → Reads self.entry rs → result ≡ place rs n }
    {
        let kind = self.field(n as usize, KIND);
        Kind::Leaf as u32 <= kind && kind <= Kind::Dummy as u32
    }

    // Whether node n is a leaf. Constant time.
    pub fn is_leaf(self, n: u32) -> bool
        ensures { (rs : List Record) → Reads self.entry rs → result ≡ is_leaf (node_at rs n).kind }
    {
        self.field(n as usize, KIND) == Kind::Leaf as u32
    }

    // Whether node n is a join. Constant time.
    pub fn is_join(self, n: u32) -> bool
        ensures { (rs : List Record) → Reads self.entry rs → result ≡ is_join (node_at rs n).kind }
    {
        self.field(n as usize, KIND) == Kind::Join as u32
    }

    // Whether node n is a dummy, as which a place without a node is taken. Constant time.
    pub fn is_dummy(self, n: u32) -> bool
        ensures { (rs : List Record) → Reads self.entry rs → result ≡ is_dummy (node_at rs n).kind }
    {
        !self.is_join(n) && !self.is_leaf(n)
    }

    // The word of leaf n's literal, 0 where it is no leaf. Constant time.
    pub fn literal(self, n: u32) -> u32
        ensures { (rs : List Record) → Reads self.entry rs → result ≡ leaf_word (node_at rs n).kind }
    {
        self.held(n as usize, Kind::Leaf, LITERAL)
    }

    // Whether node n is a join whose right side is halved. Constant time.
    pub fn halved(self, n: u32) -> bool
        ensures { (rs : List Record) → Reads self.entry rs → result ≡ is_halved (node_at rs n).kind }
    {
        self.held(n as usize, Kind::Join, HALVED) == 1
    }

    // The left side of join n, 0 where it is none. Constant time.
    pub fn left(self, n: u32) -> u32
        ensures { (rs : List Record) → Reads self.entry rs → result ≡ left_link (node_at rs n).kind }
    {
        self.held(n as usize, Kind::Join, LEFT)
    }

    // The right side of join n, 0 where it is none. Constant time.
    pub fn right(self, n: u32) -> u32
        ensures { (rs : List Record) → Reads self.entry rs → result ≡ right_link (node_at rs n).kind }
    {
        self.held(n as usize, Kind::Join, RIGHT)
    }

    // The maximum of node n, 0 where there is no node. Constant time.
    pub fn maximum(self, n: u32) -> u32
        ensures { (rs : List Record) → Reads self.entry rs → result ≡ (node_at rs n).maximum }
    {
        self.field(n as usize, MAXIMUM)
    }

    // The height of node n, 0 where there is no node. Constant time.
    pub fn height(self, n: u32) -> u32
        ensures { (rs : List Record) → Reads self.entry rs → result ≡ (node_at rs n).height }
    {
        self.field(n as usize, HEIGHT)
    }

    // Whether record i is an output. Constant time.
    pub fn is_output(self, i: usize) -> bool
        ensures { (rs : List Record) → Reads self.entry rs → result ≡ is_output (get_or rs i unknown) }
    {
        self.field(i, KIND) == Kind::Output as u32
    }

    // The node of output i, 0 where it is none. Constant time.
    pub fn output_node(self, i: usize) -> u32
        ensures { (rs : List Record) → Reads self.entry rs → result ≡ output_node (get_or rs i unknown) }
    {
        self.held(i, Kind::Output, NODE)
    }

    // The value of output i, 0 where it is none. Constant time.
    pub fn output_value(self, i: usize) -> u32
        ensures { (rs : List Record) → Reads self.entry rs → result ≡ output_value (get_or rs i unknown) }
    {
        self.held(i, Kind::Output, VALUE)
    }

    // The number of output i as a literal's word, 0 where it is none. Constant time.
    pub fn output_number(self, i: usize) -> u32
        ensures { (rs : List Record) → Reads self.entry rs → result ≡ output_number (get_or rs i unknown) }
    {
        self.held(i, Kind::Output, NUMBER)
    }

    // Whether record i is a waiting entry. Constant time.
    pub fn is_waiting(self, i: usize) -> bool
        ensures { (rs : List Record) → Reads self.entry rs → result ≡ waits (get_or rs i unknown) }
    {
        self.field(i, KIND) == Kind::Waiting as u32
    }

    // The node of waiting entry i, 0 where it is none. Constant time.
    pub fn entry_node(self, i: usize) -> u32
        ensures { (rs : List Record) → Reads self.entry rs → result ≡ entry_node (get_or rs i unknown) }
    {
        self.held(i, Kind::Waiting, NODE)
    }

    // The weight of waiting entry i, 0 where it is none. Constant time.
    pub fn entry_weight(self, i: usize) -> u32
        ensures { (rs : List Record) → Reads self.entry rs → result ≡ entry_weight (get_or rs i unknown) }
    {
        self.held(i, Kind::Waiting, WEIGHT)
    }
}

// The eight words of record n; nothing past the last whole record. Constant time.
pub fn put_record(s: &mut [u32], n: usize, x: Fields)
    ensures { s.new ≡ put_record s.old n (fields x) }
{
    if n < capacity(s) {
        let at = WORDS * n;
        let words = [x.kind as u32, x.a, x.b, x.c, x.maximum, x.height, 0, 0];
        s[at..at + WORDS].copy_from_slice(&words);
    }
}
