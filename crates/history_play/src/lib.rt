// Histories of calls, read from a text and played over lent buffers, one line a call. A line of the text is a letter, then at
// most three numbers, each behind a space:
//
//     # TITLE         a new history: no inputs, the zero state; the line is printed
//     i LITERAL W     one more input with weight W
//     x LITERAL       one more literal, to which no weight is named
//     l STORE C WORK  how many words of the store, the clause buffer and the work slice the calls from here on are lent
//     f W             W in every lent word past the marks and in every word of the work slice
//     a PLACE W       W in one word of the store
//     s FIRST, p DIVISOR, e LO END, u BOUND SCRATCH, c BOUND, n, m
//                     start, set_precision, encode_ub_change, enforce_ub, coarse_ub, next_precision, is_max_precision
//     t               the totals of clauses and of variables
//     w               every lent word of the store and of the clause buffer
//     S, P, E         the same calls, of whose answer only the refusal number is printed
//     U BOUND         enforce_ub in words that no number of a variable is in: for each literal o and the value of the root's
//                     output, t and the power of a tare, or i and an input's literal; then how many assignments of the inputs
//                     the clauses and the answer admit, and the digest of their numbers
//
// A call's line is printed back, then what it answers; r and a number is a refusal. After start, set and encode that is the
// refusal number or 0, for encode both totals, the state's fields, for its tares and its buckets how many are used, these, and
// count and digest of the other slots; then count and digest of the store's used words, of its other words, of the used clause
// words, of the others, of the work slice. After enforce: the refusal number or 0, how many literals, their words, count and
// digest of a scratch of 20 that held 7, whose first SCRATCH words were lent. A clause word is printed and digested as its
// literal's word. A digest goes through the words in order: h = (16777619 h + w) mod 4294967291, from 0.
//
// A read or a write that fails ends it with its error, and no other error comes; what was lent is then as the calls so far left it.
#![tactic(auto)]

ghost use Rattle.std.specs.Prelude.{◌<◌, ◌≤◌, ◌^◌, length, IfOk};

use records::Store;
use rules::State;
use std::io;
use std::io::{Read, Write};

// Read for the lowest number of 32 bits, which no literal's word stands for.
const LEAST: u64 = 1 << 31;

// The buffers that a history is played over, or the front of each that a call is lent.
#[derive(Drop)]
pub struct Lent<'a> {
    pub lits: &'a mut [i32],
    pub weights: &'a mut [u64],
    pub store: &'a mut [u32],
    pub clauses: &'a mut [i32],
    pub work: &'a mut [u32],
}

// What a history has come to: the state, how many literals and weights were named, how many words are lent.
#[derive(Clone, Copy)]
struct World {
    state: State,
    literals: usize,
    weights: usize,
    store: usize,
    clauses: usize,
    work: usize,
}

// A state and all that is lent, but for a line that begins with a capital. Linear in what is lent.
fn built<W: Write>(out: &mut W, line: &[u8], s: State, lent: &Lent) -> io::Result<()> {
    if history_text::brief(line) {
        return Ok(());
    }
    history_print::state(out, s)?;
    history_print::lent(out, s, lent.store, lent.clauses, lent.work)
}

// Start, from the inputs named so far. Grows as start does.
fn start<W: Write>(out: &mut W, line: &[u8], lent: &mut Lent) -> io::Result<State> {
    let first = history_text::short(line, 1);
    // Both taken before: two fields lent to be read in one call get no proof.
    let lits = &mut *lent.lits;
    let weights = &mut *lent.weights;
    let r = watchdog_start::start(lits, weights, first, lent.store, lent.clauses);
    history_print::number(out, history_print::refusal(r.answer))?;
    built(out, line, r.state, lent)?;
    Ok(r.state)
}

// Set_precision. Grows as that does.
fn set<W: Write>(out: &mut W, line: &[u8], s: State, lent: &Lent) -> io::Result<State> {
    let divisor = history_text::number(line, 1);
    let r = watchdog_precision::set_precision(s, lent.store, lent.clauses, divisor);
    history_print::number(out, history_print::refusal(r.answer))?;
    built(out, line, r.state, lent)?;
    Ok(r.state)
}

// Encode_ub_change. Grows as that does.
fn encode<W: Write>(out: &mut W, line: &[u8], s: State, lent: &mut Lent) -> io::Result<State> {
    let lo = history_text::number(line, 1);
    let end = history_text::number(line, 2);
    let r = watchdog_encode::encode_ub_change(s, lent.store, lent.clauses, lent.work, lo, end);
    history_print::number(out, history_print::refusal(r.answer))?;
    if !history_text::brief(line) {
        totals(out, r.clauses, r.variables)?;
    }
    built(out, line, r.state, lent)?;
    Ok(r.state)
}

// Enforce over as many words as the line says of a scratch of 20 that held 7: refusal number, how many literals, their words, then
// the digest of the scratch. Grows as enforce does.
fn enforce<W: Write>(out: &mut W, line: &[u8], s: State, lent: &Lent) -> io::Result<()> {
    let mut scratch = [7i32; 20];
    let n = history_text::long(line, 2);
    if scratch.len() < n {
        return Ok(());
    }
    let mut refused = 7;
    let part = watchdog_enforce::enforce_ub(
        s,
        lent.store,
        lent.clauses,
        &mut scratch[..n],
        history_text::number(line, 1),
        &mut refused,
    );
    history_print::number(out, u64::from(refused))?;
    history_print::number(out, part.len() as u64)?;
    history_print::literals(out, part)?;
    history_print::bar(out)?;
    history_print::digest_literals(out, &scratch)
}

// Enforce: refusal number, roles, assignments admitted. Grows as enforce does, and with assignments times clauses.
fn meaning<W: Write>(out: &mut W, line: &[u8], s: State, lent: &Lent) -> io::Result<()> {
    let mut scratch = [0i32; 20];
    let mut refused = 7;
    let u = history_text::number(line, 1);
    let part = watchdog_enforce::enforce_ub(
        s,
        lent.store,
        lent.clauses,
        &mut scratch,
        u,
        &mut refused,
    );
    history_print::number(out, u64::from(refused))?;
    if refused != 0 {
        return Ok(());
    }
    let store = Store {
        words: lent.store,
        records: s.records,
    };
    history_loads::roles(out, s, store, part)?;
    history_print::bar(out)?;
    history_loads::loads(out, s, lent.lits, lent.clauses, part)
}

// Coarse_ub. Grows as that does.
fn coarse<W: Write>(out: &mut W, line: &[u8], s: State, lent: &Lent) -> io::Result<()> {
    let u = history_text::number(line, 1);
    history_print::answer(
        out,
        watchdog_precision::coarse_ub(s, lent.store, lent.clauses, u),
    )
}

// Next_precision. Grows as that does.
fn next<W: Write>(out: &mut W, s: State, lent: &Lent) -> io::Result<()> {
    history_print::answer(
        out,
        watchdog_precision::next_precision(s, lent.store, lent.clauses),
    )
}

// Is_max_precision, as 1 or 0. Grows as that does.
fn maximum<W: Write>(out: &mut W, s: State, lent: &Lent) -> io::Result<()> {
    let most = watchdog_precision::is_max_precision(s, lent.store, lent.clauses);
    history_print::answer(out, most.map(u64::from))
}

// The totals of clauses and of variables. Constant time.
fn totals<W: Write>(out: &mut W, clauses: usize, variables: u32) -> io::Result<()> {
    history_print::number(out, clauses as u64)?;
    history_print::number(out, u64::from(variables))
}

// All lent words of store and clause buffer. Linear in them.
fn show<W: Write>(out: &mut W, lent: &Lent) -> io::Result<()> {
    history_print::words(out, lent.store)?;
    history_print::bar(out)?;
    history_print::literals(out, lent.clauses)
}

// A call that only reads; r0 for a letter that is none. Grows as the call does.
fn read<W: Write>(out: &mut W, line: &[u8], s: State, lent: &Lent) -> io::Result<()> {
    match history_text::byte(line, 0) {
        b'U' => meaning(out, line, s, lent),
        b'u' => enforce(out, line, s, lent),
        b'c' => coarse(out, line, s, lent),
        b'n' => next(out, s, lent),
        b'm' => maximum(out, s, lent),
        b't' => totals(out, s.clauses, s.variables),
        b'w' => show(out, lent),
        _ => history_print::refused(out, 0),
    }
}

// A call, its line printed back and its answer behind it; the state afterwards. Grows as the call does.
fn call<W: Write>(out: &mut W, line: &[u8], s: State, lent: &mut Lent) -> io::Result<State> {
    out.write_all(line)?;
    out.write_all(b":")?;
    let t = match history_text::byte(line, 0) {
        b's' | b'S' => start(out, line, lent)?,
        b'p' | b'P' => set(out, line, s, lent)?,
        b'e' | b'E' => encode(out, line, s, lent)?,
        _ => {
            read(out, line, s, lent)?;
            s
        }
    };
    history_print::end_line(out)?;
    Ok(t)
}

// A number, or its variable in the clause buffer, in all that is lent and not used. Linear in it.
fn fill(line: &[u8], s: State, lent: &mut Lent) {
    let w = history_text::short(line, 1);
    let literal = history_text::literal(line);
    let records = history_print::used_words(lent.store, s.records);
    lent.store[records..].fill(w);
    for i in history_print::used_literals(lent.clauses, s.words)..lent.clauses.len() {
        numbers::put_signed(lent.clauses, i, literal);
    }
    lent.work.fill(w);
}

// A line over what is lent: words altered, or a call; the state afterwards. Grows as the call does.
fn turn<W: Write>(out: &mut W, line: &[u8], s: State, lent: &mut Lent) -> io::Result<State> {
    match history_text::byte(line, 0) {
        b'f' => fill(line, s, lent),
        b'a' => records_words::put(
            lent.store,
            history_text::long(line, 1),
            history_text::short(line, 2),
        ),
        _ => return call(out, line, s, lent),
    }
    Ok(s)
}

// The line with what it is lent, where the buffers have that much; the state afterwards. Grows as the call does.
// The buffers come one by one: parts of a struct's fields, lent on in another struct, get no proof.
fn over<W: Write>(
    out: &mut W,
    line: &[u8],
    w: World,
    lits: &mut [i32],
    weights: &mut [u64],
    store: &mut [u32],
    clauses: &mut [i32],
    work: &mut [u32],
) -> io::Result<State> {
    if lits.len() < w.literals
        || weights.len() < w.weights
        || store.len() < w.store
        || clauses.len() < w.clauses
        || work.len() < w.work
    {
        return Ok(w.state);
    }
    let mut lent = Lent {
        lits: &mut lits[..w.literals],
        weights: &mut weights[..w.weights],
        store: &mut store[..w.store],
        clauses: &mut clauses[..w.clauses],
        work: &mut work[..w.work],
    };
    turn(out, line, w.state, &mut lent)
}

// One more literal, where there is room. Linear in the line.
fn literal(line: &[u8], w: World, lits: &mut [i32]) -> World {
    if lits.len() <= w.literals {
        return w;
    }
    if history_text::number(line, 1) == LEAST {
        lits[w.literals] = i32::MIN;
    } else {
        numbers::put_signed(lits, w.literals, history_text::literal(line));
    }
    World {
        literals: w.literals + 1,
        ..w
    }
}

// One more weight, where there is room. Linear in the line.
fn weight(line: &[u8], w: World, weights: &mut [u64]) -> World {
    if weights.len() <= w.weights {
        return w;
    }
    weights[w.weights] = history_text::number(line, 2);
    World {
        weights: w.weights + 1,
        ..w
    }
}

// Other lengths for what is lent. Linear in the line.
fn lend(line: &[u8], w: World) -> World {
    World {
        store: history_text::long(line, 1),
        clauses: history_text::long(line, 2),
        work: history_text::long(line, 3),
        ..w
    }
}

// Nothing named, nothing lent, the zero state. Constant time.
fn fresh() -> World {
    let state = State {
        inputs: 0,
        sum: 0,
        set: 0,
        built: 0,
        records: 0,
        words: 0,
        clauses: 0,
        variables: 0,
        fresh: 0,
        tares: [0; rules::MOST_TARES],
        tares_used: 0,
        buckets: [0; rules::MOST_BUCKETS],
        buckets_used: 0,
    };
    World {
        state,
        literals: 0,
        weights: 0,
        store: 0,
        clauses: 0,
        work: 0,
    }
}

// A line of the text; what the history has come to afterwards. Grows as the call does.
fn line<W: Write>(out: &mut W, line: &[u8], w: World, buffers: &mut Lent) -> io::Result<World> {
    match history_text::byte(line, 0) {
        b'#' => {
            out.write_all(line)?;
            history_print::end_line(out)?;
            Ok(fresh())
        }
        b'x' => Ok(literal(line, w, buffers.lits)),
        b'i' => Ok(weight(line, literal(line, w, buffers.lits), buffers.weights)),
        b'l' => Ok(lend(line, w)),
        _ => {
            let state = over(
                out,
                line,
                w,
                buffers.lits,
                buffers.weights,
                buffers.store,
                buffers.clauses,
                buffers.work,
            )?;
            Ok(World { state, ..w })
        }
    }
}

// Every line of the text, in order. Grows as the calls do.
pub fn play<W: Write>(out: &mut W, text: &[u8], buffers: &mut Lent) -> io::Result<()> {
    let mut w = fresh();
    for piece in text.split_inclusive(|b| *b == b'\n') {
        w = line(out, piece.strip_suffix(b"\n").unwrap_or(piece), w, buffers)?;
    }
    Ok(())
}

// Reads until the text is full or the input ends: how many bytes stand at its front. Linear in them.
pub fn read_text<R: Read>(input: &mut R, text: &mut [u8]) -> io::Result<usize>
    ensures { IfOk result (λ n. n ≤ length text.new) }
{
    let mut n: usize = 0;
    for _ in 0..text.len() {
        let got = input.read(&mut text[n..])?;
        if got == 0 {
            break;
        }
        n += got;
    }
    Ok(n)
}

// The histories of standard input, over lists with room for 257 inputs, 3,000 records and 50,000 clause words. Grows as the calls
// do.
pub fn play_input<R: Input + Print>(rt: &R) -> io::Result<()> {
    play_over::<R, 131072, 257, 24000, 50000>(rt)
}

// The histories of standard input, of a text, lists, a store and a clause buffer with room for so much. Grows as the calls do.
pub fn play_over<
    R: Input + Print,
    const TEXT: usize,
    const INPUTS: usize,
    const STORE: usize,
    const CLAUSES: usize,
>(rt: &R) -> io::Result<()>
    requires { (TEXT < 2 ^ 60) × (INPUTS < 2 ^ 60) × (STORE < 2 ^ 60) × (CLAUSES < 2 ^ 60) }
{
    let mut text = [0u8; TEXT];
    let mut lits = [0i32; INPUTS];
    let mut weights = [0u64; INPUTS];
    let mut work = [0u32; rules::WORK_WORDS];
    let mut store = [0u32; STORE];
    let mut clauses = [0i32; CLAUSES];
    let mut out = io::writer(rt);
    let n = read_text(&mut rt.reader(), &mut text)?;
    let mut buffers = Lent {
        lits: &mut lits,
        weights: &mut weights,
        store: &mut store,
        clauses: &mut clauses,
        work: &mut work,
    };
    play(&mut out, &text[..n], &mut buffers)
}
