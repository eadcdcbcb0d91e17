// What an encode has to do: whether something is asked, which case it is, and whether anything is left to do.
#![tactic(auto)]

ghost use Rattle.std.specs.Prelude.{◌≡◌, List, ℕ, ◌≤◌, ◌<◌, ℤ};
ghost use Rattle.rules.specs.Build.{build_of};
ghost use Rattle.rules.specs.Encode.{nothing_asked, encode, nothing_done};
ghost use Rattle.laws.specs.WellFormed.Plain.{WellFormed};
ghost use Rattle.encode_case.specs.Case.{reaches, case_of};
ghost use Rattle.encode_case.specs.Call.{Begins};

use encode_outputs::Range;
use records::Store;
use rules::{Refusal, State};

// Which case it is, by the largest waiting weight against the set divisor: the first build or a refinement is due where it reaches
// the divisor; else what stands is left.
#[derive(Clone, Copy)]
pub struct Case {
    pub due: bool,
    // the built divisor afterwards
    pub built: u64,
}

// Empty range or under two inputs. Constant time.
pub fn nothing_asked(s: State, range: Range) -> bool
    ensures { (store : List ℕ) → result ≡ nothing_asked (build_of s store) range.lo range.end }
{
    range.end <= range.lo || s.inputs < 2
}

// Which case it is; 10 where nothing stands yet and the divisor is above every weight. Linear in the records.
pub fn which_case(s: State, store: &[u32]) -> Result<Case, Refusal>
    ensures { (c : List ℤ) → WellFormed s store.now c → result ≡ case_of (build_of s store.now) }
{
    let used = Store {
        words: store,
        records: s.records,
    };
    if s.set <= records_waiting::largest(used) as u64 {
        Ok(Case {
            due: true,
            built: s.set,
        })
    } else if s.built == 0 {
        Err(Refusal::DivisorAbove)
    } else {
        Ok(Case {
            due: false,
            built: s.built,
        })
    }
}

// Whether nothing would be built, refined or defined. A find for each output of the range.
pub fn nothing_to_do(s: State, store: &[u32], due: bool, range: Range) -> bool
    requires { (s.tares_used ≤ 19) × (range.lo < range.end) }
    ensures { (c : List ℤ) → Begins s store.now c range → due ≡ reaches (build_of s store.now) →
        result ≡ nothing_done (build_of s store.now) (encode (build_of s store.now) range.lo range.end) }
{
    if due {
        return false;
    }
    let used = Store {
        words: store,
        records: s.records,
    };
    let root = s.buckets[0];
    let vs = encode_outputs::values(used.maximum(root), s.tares_used, range);
    encode_outputs::all_defined(used, root, vs)
}
