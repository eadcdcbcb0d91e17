// The build that an encode reaches: what stands, the first build or a refinement, then the outputs of the range and what waits.
#![tactic(auto)]

ghost use Rattle.std.specs.Prelude.{◌≡◌, IfSome, ◌≤◌, length, take};
ghost use Rattle.rules.specs.Build.{build_of, largest};
ghost use Rattle.rules.specs.Encode.{prepared, encode_outputs};
ghost use Rattle.laws.specs.WellFormed.Plain.{WellFormed};
ghost use Rattle.records.specs.Carries.{st, at};
ghost use Rattle.build_begin.specs.Answer.{structure_marks};
ghost use Rattle.build_begin.specs.Named.{marks_at};
ghost use Rattle.encode_undo.specs.Aside.{Aside};
ghost use Rattle.encode_case.specs.Case.{reaches};
ghost use Rattle.encode_case.specs.Call.{Begins};
ghost use Rattle.encode_reach.specs.Reached.{standing, Structured, Reached};

use build_begin::Structure;
use encode_outputs::{Places, Range};
use records::Store;
use rules::State;

// Where a build's work words begin, behind what is set aside.
const BUILD: usize = 3072;

// Where the weights of its queue begin.
const BUILD_WEIGHTS: usize = BUILD + build_line::PLACES;

// What stands of a state whose waiting entries begin at record n. Constant time.
fn standing(s: State, n: usize) -> Structure
    ensures { result ≡ standing s n }
{
    let State {
        tares,
        tares_used,
        buckets,
        buckets_used,
        ..
    } = s;
    Structure {
        marks: build_begin::marks_at(s, n),
        head: build_line::PLACES,
        tares,
        tares_used,
        buckets,
        buckets_used,
    }
}

// The first build or the refinement of a state whose largest waiting weight reaches the divisor; none where the room ends. Grows
// as those do.
fn structured(
    s: State,
    store: &mut [u32],
    clauses: &mut [i32],
    work: &mut [u32],
    n: usize,
) -> Option<Structure>
    requires { WellFormed s store.old clauses.old × (n ≡ length (build_of s store.old).arena.records) × (s.set ≤ largest (build_of s store.old).queue) × (13312 ≤ length work.old) }
    ensures { Structured (build_of s store.old) (st store.old clauses.old (at (marks_at s n))) (st store.new clauses.new (structure_marks result)) work.new result × (length work.new ≡ length work.old) × IfSome result (λ z. (z.head ≤ 512) × (z.tares_used ≤ 19)) }
{
    let m = build_begin::marks_at(s, n);
    let used = Store {
        words: store,
        records: s.records,
    };
    let h = build_tower::queued(used, work, n);
    if s.built == 0 {
        build_first::build_structure(s, store, work, m, h)
    } else {
        refine_structure::merge_structures(s, store, clauses, work, m, h)
    }
}

// The first build or the refinement, with the outputs of the range; none where the room ends. Grows as those do, and a define for
// each output.
fn rebuilt(
    s: State,
    store: &mut [u32],
    clauses: &mut [i32],
    work: &mut [u32],
    n: usize,
    range: Range,
) -> Option<Structure>
    requires { Begins s store.old clauses.old range × (n ≡ length (build_of s store.old).arena.records) × (s.set ≤ largest (build_of s store.old).queue) × (16384 ≤ length work.old) }
    ensures { Reached (build_of s store.old).buckets (st store.old clauses.old (at (marks_at s n))) (st store.new clauses.new (structure_marks result)) (encode_outputs (prepared (build_of s store.old)) range.lo range.end) result × (length work.new ≡ length work.old) × (take 3072 work.new ≡ take 3072 work.old) }
{
    let z = structured(s, store, clauses, &mut work[BUILD..], n)?;
    let queue = Places {
        node: BUILD + z.head,
        weight: BUILD_WEIGHTS + z.head,
        apart: 1,
        many: build_line::PLACES - z.head,
    };
    encode_outputs::completed(store, clauses, work, z, range, queue)
}

// The build that an encode reaches with the outputs of its range, none where the room ends; `due`, a fact of the build that
// the promise names, says whether the first build or a refinement is. Grows as those do, and a define for each output.
pub fn reach(
    s: State,
    store: &mut [u32],
    clauses: &mut [i32],
    work: &mut [u32],
    n: usize,
    due: bool,
    range: Range,
) -> Option<Structure>
    requires { Begins s store.old clauses.old range × (n ≡ length (build_of s store.old).arena.records) × (due ≡ reaches (build_of s store.old)) × Aside s store.old work.old n }
    ensures { Reached (build_of s store.old).buckets (st store.old clauses.old (at (marks_at s n))) (st store.new clauses.new (structure_marks result)) (encode_outputs (prepared (build_of s store.old)) range.lo range.end) result × (length work.new ≡ length work.old) × (take 3072 work.new ≡ take 3072 work.old) }
{
    if due {
        rebuilt(s, store, clauses, work, n, range)
    } else {
        let saved = Places {
            node: records::NODE,
            weight: records::WEIGHT,
            apart: records::WORDS,
            many: s.records - n,
        };
        encode_outputs::completed(store, clauses, work, standing(s, n), range, saved)
    }
}
