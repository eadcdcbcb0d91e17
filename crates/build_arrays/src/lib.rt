// The two arrays of a state, filled from the front: tares, lowest power first, and buckets, root first.
#![tactic(auto)]

ghost use Rattle.std.specs.Prelude.{◌≡◌, List, ◌++◌, ℕ, ◌+◌, ◌≤◌, ◌<◌, length};
ghost use Rattle.rules.specs.Lists.{rising, padded};

use rules::MOST_TARES;

// So many tares with the numbers from a first one on. A turn a tare.
pub fn fresh_tares(first: u32, many: usize) -> [u32; MOST_TARES]
    requires { (many ≤ 19) × (first + many < 4294967296) }
    ensures { result ≡ padded 0 19 (rising many first) }
{
    let mut tares = [0; MOST_TARES];
    for (i, tare) in tares[..many].iter_mut().enumerate() {
        *tare = first + i as u32;
    }
    tares
}

// Tares or buckets of a state behind the first `many` of an array, which shifts them upward. A turn each.
pub fn append<const N: usize>(front: [u32; N], many: usize, rest: &[u32]) -> [u32; N]
    requires { many + length rest.now ≤ N }
    ensures { (xs : List ℕ) → length xs ≡ many → front.entry ≡ padded 0 N xs → result ≡ padded 0 N (xs ++ rest.now) }
{
    let mut slots = front;
    slots.as_mut_slice()[many..many + rest.len()].copy_from_slice(rest);
    slots
}
