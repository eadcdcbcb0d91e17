// Numbers in a line of text.
#![tactic(auto)]

// The byte at i, 0 past the end. Constant time.
pub fn byte(line: &[u8], i: usize) -> u8 {
    line.get(i).copied().unwrap_or(0)
}

// Whether the line begins with a capital. Constant time.
pub fn brief(line: &[u8]) -> bool {
    byte(line, 0).is_ascii_uppercase()
}

// The number with one more digit; a byte that is none, or one that takes it past 64 bits, changes nothing. Constant time.
fn with_digit(v: u64, b: u8) -> u64 {
    if b.is_ascii_digit() {
        v.checked_mul(10)
            .and_then(|tens| tens.checked_add(u64::from(b - b'0')))
            .unwrap_or(v)
    } else {
        v
    }
}

// Number k of a line, counted from 1: the digits behind as many spaces, 0 where there is none, with which a call of a short line
// goes on. A sign is passed over. Linear in the line.
pub fn number(line: &[u8], k: usize) -> u64 {
    line.split(|b| *b == b' ')
        .nth(k)
        .map_or(0, |word| word.iter().fold(0, |v, b| with_digit(v, *b)))
}

// Number k of a line as 32 bits, the most where it has more. Linear in the line.
pub fn short(line: &[u8], k: usize) -> u32 {
    u32::try_from(number(line, k)).unwrap_or(u32::MAX)
}

// Number k of a line as a length. Linear in the line.
pub fn long(line: &[u8], k: usize) -> usize {
    number(line, k) as usize
}

// The word of the signed number that is number 1 of a line. Where that has over 31 bits it is 0, which is no
// literal's word. Linear in the line.
pub fn literal(line: &[u8]) -> u32 {
    let negative = byte(line, 2) == b'-';
    short(line, 1)
        .checked_mul(2)
        .map_or(0, |word| word | u32::from(negative))
}
