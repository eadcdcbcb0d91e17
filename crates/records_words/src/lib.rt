// Lent words of any length: read, written, zeroed. A read past the end is 0 and a write past the end does nothing.
#![tactic(auto)]

ghost use Rattle.std.specs.Prelude.{◌≡◌, length, take, pos};
ghost use Rattle.rules.specs.Lists.{padded};
ghost use Rattle.records_words.specs.Words.{word_at, put_word};

// The word at i. Constant time.
pub fn word(s: &[u32], i: usize) -> u32
    ensures { result ≡ word_at s.now i }
{
    s.get(i).copied().unwrap_or(0)
}

// A word written at i. Constant time. By index: after a write through `get_mut` the proof knows no word.
pub fn put(s: &mut [u32], i: usize, w: u32)
    ensures { s.new ≡ put_word s.old i w }
{
    if i < s.len() {
        s[i] = w;
    }
}

// All elements from a mark to the end set to x. Linear in the elements set. By index: `fill` asks of a type parameter that its
// clone cannot fail, which `Copy` does not say.
pub fn pad<T: Copy>(s: &mut [T], from: usize, x: T)
    ensures { s.new ≡ padded x (length s.old) (take from s.old) }
{
    for i in from..s.len() {
        s[i] = x;
    }
}

// All words from a mark to the end set to 0. Linear in the words set.
pub fn zero_words(s: &mut [u32], from: usize)
    ensures { s.new ≡ padded 0 (length s.old) (take from s.old) }
{
    pad(s, from, 0)
}

// All signed words from a mark to the end set to 0. Linear in the words set.
pub fn zero_signed(c: &mut [i32], from: usize)
    ensures { c.new ≡ padded (pos 0) (length c.old) (take from c.old) }
{
    pad(c, from, 0)
}
