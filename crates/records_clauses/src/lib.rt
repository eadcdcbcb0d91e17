// Clauses in lent words: a clause of two sides and an output, closed by 0, where there is room; else none.
#![tactic(auto)]

ghost use Rattle.std.specs.Prelude.{◌≡◌, List, ℕ};
ghost use Rattle.records.specs.Carries.{st, at, after, Steps};
ghost use Rattle.records_clauses.specs.Clauses.{buf, push, push_side, push_clause, with_clause, clause_of};

use records::Marks;

// A literal at the end of the words.
fn push(c: &mut [i32], i: usize, w: u32) -> usize
    ensures { buf c.new result ≡ push (buf c.old i) w }
{
    if i < c.len() {
        numbers::put_signed(c, i, w);
        i + 1
    } else {
        i
    }
}

// A side at the end of the words, if there is one.
fn push_side(c: &mut [i32], i: usize, side: Option<u32>) -> usize
    ensures { buf c.new result ≡ push_side (buf c.old i) side }
{
    match side {
        Some(w) => push(c, i, w),
        None => i,
    }
}

fn push_clause(c: &mut [i32], i: usize, p: Option<u32>, q: Option<u32>, o: u32) -> usize
    ensures { buf c.new result ≡ push_clause (buf c.old i) p q o }
{
    let j = push_side(c, i, p);
    let k = push_side(c, j, q);
    let l = push(c, k, o);
    push(c, l, 0)
}

// A clause of two sides and an output, closed by 0; none where it does not fit. Constant time.
pub fn put_clause(c: &mut [i32], m: Marks, p: Option<u32>, q: Option<u32>, o: u32) -> Option<Marks>
    ensures { (s : List ℕ) → Steps (st s c.old (at m)) (st s c.new (after result)) (with_clause (clause_of p q o)) }
{
    let room = c.len().saturating_sub(m.words);
    if room < usize::from(p.is_some()) + usize::from(q.is_some()) + 2 {
        return None;
    }
    Some(Marks {
        words: push_clause(c, m.words, p, q, o),
        clauses: m.clauses.saturating_add(1),
        ..m
    })
}
