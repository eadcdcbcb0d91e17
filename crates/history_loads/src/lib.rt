// What an answer means, written to a writer: the role of each of its literals, and which assignments of the inputs are admitted by
// clauses and answer. A clause has at most one literal that is neither negated nor an input's, so the assignment with the fewest
// other variables true decides. A write that fails ends it with its error, and no other error comes. Literals are gone through by
// index, since `numbers` alone reads signed words.
#![tactic(auto)]

use records::Store;
use rules::State;
use std::io;
use std::io::Write;

// Of a clause so far: whether a literal holds, and which one may be made true; either may be so without the other.
#[derive(Clone, Copy, Default)]
struct Clause {
    met: bool,
    free: Option<u32>,
}

// What an assignment is to meet: clauses, and an answer whose literals are a clause each. Variables below `first` are inputs'.
#[derive(Clone, Copy)]
struct Claims<'a> {
    clauses: &'a [i32],
    answer: &'a [i32],
    first: u32,
}

// The value of a literal's variable set; nothing past the end. Constant time.
fn set(truth: &mut [bool], w: u32, value: bool) {
    if let Some(place) = truth.get_mut(numbers::variable(w) as usize) {
        *place = value;
    }
}

// Whether a literal, given by its word, holds where these variables are true. Constant time.
fn holds(truth: &[bool], w: u32) -> bool {
    let value = truth.get(numbers::variable(w) as usize).copied();
    value.unwrap_or(false) == numbers::positive(w)
}

impl Clause {
    // One more literal, which may be made true where it is not negated and its variable no input's. Constant time. By & and |: with &&
    // and || `cases_rust` took longer.
    fn with(self, truth: &[bool], first: u32, w: u32) -> Clause {
        let may = (first <= numbers::variable(w)) & numbers::positive(w);
        Clause {
            met: self.met | holds(truth, w),
            free: if may { Some(w) } else { self.free },
        }
    }

    // Its end: where it is not met, its free literal is made true. Whether one was, none where it cannot be met. Constant time.
    fn end(self, truth: &mut [bool]) -> Option<bool> {
        if self.met {
            return Some(false);
        }
        let w = self.free?;
        set(truth, w, true);
        Some(true)
    }
}

impl Claims<'_> {
    // One pass over all clauses: whether a variable was made true, none where a clause cannot be met. Linear in their words.
    fn pass(self, truth: &mut [bool]) -> Option<bool> {
        let mut raised = false;
        let mut clause = Clause::default();
        for i in 0..self.clauses.len() {
            match numbers::word_at(self.clauses, i) {
                0 => {
                    raised |= clause.end(truth)?;
                    clause = Clause::default();
                }
                w => clause = clause.with(truth, self.first, w),
            }
        }
        Some(raised)
    }

    // One pass over the literals of the answer: as one over clauses. Linear in them.
    fn units(self, truth: &mut [bool]) -> Option<bool> {
        let mut raised = false;
        for i in 0..self.answer.len() {
            let w = numbers::word_at(self.answer, i);
            raised |= Clause::default().with(truth, self.first, w).end(truth)?;
        }
        Some(raised)
    }

    // One pass over clauses and answer: as one over clauses. Linear in their words.
    fn round(self, truth: &mut [bool]) -> Option<bool> {
        Some(self.pass(truth)? | self.units(truth)?)
    }

    // Passes until one raises nothing: whether each clause can be met. As many passes as there are variables, at most.
    fn admit(self, truth: &mut [bool]) -> bool {
        for _ in 0..truth.len() {
            let Some(raised) = self.round(truth) else {
                return false;
            };
            if !raised {
                return true;
            }
        }
        false
    }
}

// Assignment n: input literal i is true exactly where bit i is set; every other variable is false. Linear in the variables.
fn assign(lits: &[i32], truth: &mut [bool], n: u32) {
    truth.fill(false);
    let mut bits = n;
    for i in 0..lits.len() {
        let w = numbers::word_at(lits, i);
        set(truth, w, numbers::positive(w) == (bits % 2 == 1));
        bits /= 2;
    }
}

// How many assignments there are, none where the inputs are over 12. Constant time.
fn assignments(inputs: usize) -> u32 {
    if inputs <= 12 { 1 << inputs } else { 0 }
}

// How many assignments of at most 12 inputs are admitted by the used clauses and an answer, and the digest of their numbers: bit i
// of a number is set where literal i is true. A turn an assignment, each some passes over the clauses; up to 4,095 variables.
pub fn loads<W: Write>(
    out: &mut W,
    s: State,
    lits: &[i32],
    clauses: &[i32],
    answer: &[i32],
) -> io::Result<()> {
    let claims = Claims {
        clauses: &clauses[..history_print::used_literals(clauses, s.words)],
        answer,
        first: s.fresh.saturating_sub(s.variables),
    };
    let mut truth = [false; 4096];
    let mut count: u64 = 0;
    let mut h: u64 = 0;
    for n in 0..assignments(lits.len()) {
        assign(lits, &mut truth, n);
        if claims.admit(&mut truth) {
            count += 1;
            h = history_print::digest_with(h, n);
        }
    }
    history_print::number(out, count)?;
    history_print::number(out, h)
}

// The value of a node's output with this literal's word. Linear in the records.
fn output(store: Store, node: u32, w: u32) -> Option<u32> {
    (0..store.records)
        .find(|i| {
            store.is_output(*i) && store.output_node(*i) == node && store.output_number(*i) == w
        })
        .map(|i| store.output_value(i))
}

// The role of a literal. Not negated: t and a tare's power, else i and the input's variable. Negated: o and the value of the root's
// output, else i and the input's variable behind a sign. Linear in the records.
fn role<W: Write>(out: &mut W, s: State, store: Store, w: u32) -> io::Result<()> {
    let variable = numbers::variable(w);
    if numbers::positive(w) {
        let mut tares = s.tares.iter().take(s.tares_used as usize);
        match tares.position(|tare| *tare == variable) {
            Some(power) => write!(out, " t{power}"),
            None => write!(out, " i{variable}"),
        }
    } else {
        match output(store, s.buckets[0], numbers::negated(w)) {
            Some(value) => write!(out, " o{value}"),
            None => write!(out, " i-{variable}"),
        }
    }
}

// The role of each literal of an answer. Linear in the records for each.
pub fn roles<W: Write>(out: &mut W, s: State, store: Store, answer: &[i32]) -> io::Result<()> {
    for i in 0..answer.len() {
        role(out, s, store, numbers::word_at(answer, i))?;
    }
    Ok(())
}
