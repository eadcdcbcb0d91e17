// The first build.
#![tactic(auto)]

ghost use Rattle.std.specs.Prelude.{◌≡◌, IfSome, List, ◌≤◌, length, ℤ};
ghost use Rattle.rules.specs.Build.{build_of};
ghost use Rattle.rules.specs.Buckets.{build_structure};
ghost use Rattle.records.specs.Carries.{St, st, at, Fits, Carries};
ghost use Rattle.build_begin.specs.Answer.{structure_marks};
ghost use Rattle.build_begin.specs.Named.{Named};
ghost use Rattle.build_first.specs.Ready.{Ready};

use build_begin::Structure;
use build_line::MADE_END;
use build_tower::Plan;
use records::Marks;
use rules::{MOST_BUCKETS, State};

// The buckets of powers p to L - 1, each but the top one with a tare, numbers taken in rising power. As a tower grows.
pub fn build_structure(
    s: State,
    store: &mut [u32],
    work: &mut [u32],
    m: Marks,
    h: usize,
) -> Option<Structure>
    requires { Ready (build_of s store.old) work.old h × (m.fresh ≡ s.fresh) }
    ensures { ((e : St) (c : List ℤ) → Carries e (st store.old c (at m)) (build_of s store.old).arena → Carries e (st store.new c (structure_marks result)) (build_structure (build_of s store.old)).arena × (Fits e (build_structure (build_of s store.old)).arena → IfSome result (λ z. Named work.new z (build_structure (build_of s store.old))))) × (length work.new ≡ length work.old) × IfSome result (λ z. (z.head ≤ 512) × (z.tares_used ≤ 19)) }
{
    let most = build_queue::weight(work, h);
    let l = numbers::digits(u64::from(most));
    let p = numbers::top_bit(s.set);
    let k = l - 1 - p;
    let tares = build_arrays::fresh_tares(m.fresh, k as usize);
    let plan = Plan {
        divisor: s.set,
        tares: &tares[..k as usize],
        low: p as usize,
        end: l as usize,
        taken: k,
    };
    let t = build_tower::tower(store, work, m, h, plan)?;
    let made = &work[MADE_END - t.used..MADE_END];
    let buckets = build_arrays::append([0; MOST_BUCKETS], 0, made);
    Some(Structure {
        marks: t.marks,
        head: t.head,
        tares,
        tares_used: k,
        buckets,
        buckets_used: t.used as u32,
    })
}
