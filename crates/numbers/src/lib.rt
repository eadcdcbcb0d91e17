// Numbers and literals. Signed words are read, compared and written here alone; the other crates pass a literal's word,
// twice its variable, one more for a negation.
#![tactic(auto)]

ghost use Rattle.std.specs.Prelude.{◌≡◌, ◌<◌, ◌≤◌, ◌%◌, ◌^◌, eqb, neg_ℤ, nat_abs};
ghost use Rattle.rules.specs.Numbers.{lawful};
ghost use Rattle.rules.specs.Digits.{digits, top_bit, power_of_two};
ghost use Rattle.rules.specs.Records.{literal_word, word_literal};
ghost use Rattle.numbers.specs.Signed.{signed_at, put_signed, word_or_none};

// The bit length of x, 1 for 0. Constant time.
pub fn digits(x: u64) -> u32
    ensures value { result ≡ digits x }
    ensures within { (1 ≤ result) × (result ≤ 64) }
{
    top_bit(x) + 1
}

// The power of x's top bit. Constant time.
pub fn top_bit(x: u64) -> u32
    ensures value { result ≡ top_bit x }
    ensures within { result < 64 }
{
    x.max(1).ilog2()
}

// 2 to the k in 64 bits. Constant time.
pub fn power(k: u32) -> u64
    ensures { result ≡ 2 ^ k % 2 ^ 64 }
{
    1u64.checked_shl(k).unwrap_or(0)
}

// Whether x is a power of two. Constant time.
pub fn power_of_two(x: u64) -> bool
    ensures { result ≡ power_of_two x }
{
    x.is_power_of_two()
}

// Whether x is a literal: not 0, its variable at most 1,000,000,000. Constant time.
fn lawful(x: i32) -> bool
    ensures { result ≡ lawful x }
{
    (1..=rules::MOST_VARIABLE).contains(&x.unsigned_abs())
}

// The word of a literal, 0 for a number that is none, as `word_at` gives it. Constant time.
fn literal_word(x: i32) -> u32
    ensures { result ≡ word_or_none x }
{
    if lawful(x) {
        2 * x.unsigned_abs() + u32::from(x < 0)
    } else {
        0
    }
}

// Whether the number at i is a literal. Constant time.
pub fn lawful_at(lits: &[i32], i: usize) -> bool
    ensures { result ≡ lawful (signed_at lits.now i) }
{
    i < lits.len() && lawful(lits[i])
}

// The word of the literal at i, 0 where there is none: callers have tested it by `lawful_at`, or print it. Constant time.
pub fn word_at(lits: &[i32], i: usize) -> u32
    ensures { result ≡ word_or_none (signed_at lits.now i) }
{
    if i < lits.len() {
        literal_word(lits[i])
    } else {
        0
    }
}

// The variable of a literal's word. Constant time.
pub fn variable(w: u32) -> u32
    ensures { result ≡ nat_abs (word_literal w) }
{
    w / 2
}

// Whether a literal's word is that of a variable and no negation. Constant time.
pub fn positive(w: u32) -> bool
    ensures { result ≡ eqb (w % 2) 0 }
{
    w % 2 == 0
}

// The word of the negation. Constant time.
pub fn negated(w: u32) -> u32
    ensures { result ≡ literal_word (neg_ℤ (word_literal w)) }
{
    if w < 2 { 0 } else { w ^ 1 }
}

// The signed number of a word. Constant time.
fn signed(w: u32) -> i32
    ensures { result ≡ word_literal w }
{
    let v = (w / 2) as i32;
    if w % 2 == 0 { v } else { -v }
}

// The signed number of a word, written at i; nothing past the end. Constant time.
pub fn put_signed(c: &mut [i32], i: usize, w: u32)
    ensures { c.new ≡ put_signed c.old i (word_literal w) }
{
    if i < c.len() {
        c[i] = signed(w);
    }
}
