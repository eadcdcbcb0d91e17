// Tests of short lists of numbers: the used slots of a state's arrays. They are linear in the list but where it is said.
#![tactic(auto)]

ghost use Rattle.std.specs.Prelude.{◌≡◌, ◌&&◌, ℕ, leb, ltb, length, take};
ghost use Rattle.rules.specs.Lists.{all, among, distinct};
ghost use Rattle.rules.specs.WellFormed.{slots_within, above};

// Whether n stands in the list. Linear.
pub fn among(xs: &[u32], n: u32) -> bool
    ensures { result ≡ among xs.now n }
{
    xs.contains(&n)
}

// Whether no number stands twice. Quadratic.
pub fn distinct(xs: &[u32]) -> bool
    ensures { result ≡ distinct xs.now }
{
    for (i, x) in xs.iter().enumerate() {
        if among(&xs[i + 1..], *x) {
            return false;
        }
    }
    true
}

// Whether every number is at least `low` and below `fresh`. Linear.
pub fn between(xs: &[u32], low: u64, fresh: u32) -> bool
    ensures { result ≡ all (λ (n : ℕ). leb low n && ltb n fresh) xs.now }
{
    xs.iter().all(|n| low <= u64::from(*n) && *n < fresh)
}

// Whether n stands just after i. Linear.
pub fn above(xs: &[u32], i: usize, n: u32) -> bool
    ensures { result ≡ above xs.now i n }
{
    xs.windows(2)
        .any(|pair| pair[0] as usize == i && pair[1] == n)
}

// Whether the used slots lie within the array and the others are 0. Linear.
pub fn slots_within(slots: &[u32], used: u32) -> bool
    ensures { result ≡ slots_within (length slots.now) used slots.now (take used slots.now) }
{
    let used = used as usize;
    used <= slots.len() && slots[used..].iter().all(|x| *x == 0)
}
