// The answers of the precision calls over a build that is well formed: the next divisor, a coarse bound, a divisor set.
#![tactic(auto)]

ghost use Rattle.std.specs.Prelude.{◌≡◌, cond, not, ◌&&◌, List, [], ◌∷◌, ◌≤◌, ◌^◌, eqb, ltb};
ghost use Rattle.rules.specs.Numbers.{divisor_of};
ghost use Rattle.rules.specs.Digits.{top_bit};
ghost use Rattle.rules.specs.Records.{Record, entries};
ghost use Rattle.rules.specs.Build.{largest};
ghost use Rattle.rules.specs.Refusals.{first_true, divisor_unlawful, answer_of};
ghost use Rattle.rules.specs.Precision.{set_end};
ghost use Rattle.rules.specs.Coarse.{coarse_at};
ghost use Rattle.records.specs.Carries.{Reads};

use records::Store;
use rules::{Refusal, Set, State};

// The next divisor: the top power of the largest waiting weight, 1 where nothing waits. Linear in the records.
pub fn next(store: Store) -> u64
    ensures { (rs : List Record) → Reads store.entry rs → result ≡ 2 ^ top_bit (largest (entries rs)) }
{
    numbers::power(numbers::top_bit(u64::from(records_waiting::largest(store))))
}

// The bound that outputs of weight w can hold. Constant time.
fn coarse_at(w: u64, u: u64) -> u64
    ensures { result ≡ coarse_at w u }
{
    if w == 0 {
        return 0;
    }
    if u < w {
        return u;
    }
    let left = u % w;
    if left + 1 == w { u } else { u - left - 1 }
}

// The bound that a build with so many tares can hold. Constant time.
pub fn coarse(built: u64, tares: u32, u: u64) -> u64
    requires { tares ≤ 19 }
    ensures { result ≡ cond (eqb built 0) u (coarse_at (2 ^ tares) u) }
{
    if built == 0 {
        u
    } else {
        coarse_at(numbers::power(tares), u)
    }
}

// Refusal 8: neither 0 nor a power of two. Constant time.
fn divisor_unlawful(divisor: u64) -> bool
    ensures { result ≡ divisor_unlawful divisor }
{
    divisor != 0 && !numbers::power_of_two(divisor)
}

// 0 is taken as 1.
fn divisor_of(divisor: u64) -> u64
    ensures { result ≡ divisor_of divisor }
{
    divisor.max(1)
}

// Refusal 9: built, and the divisor above the last one set. Constant time.
fn divisor_coarser(built: u64, set: u64, divisor: u64) -> bool
    ensures { result ≡ not (eqb built 0) && ltb set (divisor_of divisor) }
{
    built != 0 && set < divisor_of(divisor)
}

// The first refusal of a divisor; `formed` says whether what was lent is well formed. Constant time.
fn check_divisor(s: State, formed: bool, divisor: u64) -> Result<(), Refusal>
    ensures { result ≡ answer_of (first_true ((12, not formed) ∷ (8, divisor_unlawful divisor) ∷ (9, not (eqb s.built 0) && ltb s.set (divisor_of divisor)) ∷ [])) }
{
    if !formed {
        Err(Refusal::NotWellFormed)
    } else if divisor_unlawful(divisor) {
        Err(Refusal::DivisorUnlawful)
    } else if divisor_coarser(s.built, s.set, divisor) {
        Err(Refusal::DivisorCoarser)
    } else {
        Ok(())
    }
}

// A divisor set, or the first refusal and the state as it came; `formed` says whether what was lent is well formed. At most 63
// turns.
pub fn set(s: State, formed: bool, divisor: u64) -> Set
    ensures { result ≡ set_end (first_true ((12, not formed) ∷ (8, divisor_unlawful divisor) ∷ (9, not (eqb s.built 0) && ltb s.set (divisor_of divisor)) ∷ [])) s divisor }
{
    let answer = check_divisor(s, formed, divisor);
    let state = match answer {
        Ok(()) => State {
            set: divisor_of(divisor),
            ..s
        },
        Err(_) => s,
    };
    Set { answer, state }
}
