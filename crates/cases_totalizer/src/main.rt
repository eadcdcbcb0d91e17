// The totalizer by itself. First the tree of P3 (literals 1, 2, 3 with weights 1, 2, 3, first fresh number 4) built as the rules
// say, output 2 of its root defined, and the clauses written one a line; the memory lent is what P3 needs: 14 records and 34 clause
// words. Then 256 leaves merged and every output of the root defined, with all that they use: the counts and a sum over the clause
// words. The sum runs through the words in order, h = (16777619 h + w) mod 4294967291 with w the word of the literal, 0 at a clause's
// end. A direct computation of the totalizer rule on a tree of objects, which shares nothing with this code, gives the same counts
// and the same sum; the count of clauses is also that of 2^(7-j) ((2^j + 1)^2 - 1) added for j from 0 to 7.
#![tactic(auto)]

use records::Marks;
use records_append::Made;
use std::io;
use std::io::Write;

// Nothing used, and the first fresh number.
fn blank_marks(fresh: u32) -> Marks {
    Marks {
        records: 0,
        words: 0,
        fresh,
        clauses: 0,
    }
}

// The inputs, the run of weight 1, the tare, both buckets and their join.
fn tree(s: &mut [u32], m: Marks) -> Option<Made> {
    let one = records_append::leaf(s, m, 2)?;
    let two = records_append::leaf(s, one.marks, 4)?;
    let three = records_append::leaf(s, two.marks, 6)?;
    let run = totalizer_merge::merge(s, &[one.node, three.node], three.marks)?;
    let tare = records_append::leaf(s, run.marks, 8)?;
    let low = totalizer_merge::merge(s, &[tare.node, run.node], tare.marks)?;
    let high = totalizer_merge::merge(s, &[three.node, two.node], low.marks)?;
    records_append::join(s, high.marks, true, high.node, low.node)
}

// A literal, apart from the one before it.
fn print_literal<W: Write>(out: &mut W, w: u32, apart: bool) -> io::Result<()> {
    if apart {
        out.write_all(b" ")?;
    }
    if !numbers::positive(w) {
        out.write_all(b"-")?;
    }
    let variable = numbers::variable(w);
    write!(out, "{variable}")
}

// Clauses, one a line. Linear in their words.
fn print_clauses<W: Write>(out: &mut W, c: &[i32]) -> io::Result<()> {
    let mut apart = false;
    for i in 0..c.len() {
        let w = numbers::word_at(c, i);
        if w == 0 {
            out.write_all(b"\n")?;
        } else {
            print_literal(out, w, apart)?;
        }
        apart = w != 0;
    }
    Ok(())
}

// The tree, and output 2 of its root defined.
fn define_root(s: &mut [u32], c: &mut [i32]) -> Option<Marks> {
    let root = tree(s, blank_marks(5))?;
    totalizer_define::define(s, c, root.marks, root.node, 2)
}

// P3's clauses and counts.
fn worked<W: Write>(out: &mut W) -> io::Result<()> {
    let mut store = [0u32; 112];
    let mut buffer = [0i32; 34];
    let Some(
        Marks {
            clauses,
            words,
            records,
            ..
        },
    ) = define_root(&mut store, &mut buffer)
    else {
        return Ok(());
    };
    print_clauses(out, &buffer[..history_print::used_literals(&buffer, words)])?;
    writeln!(out, "{clauses} clauses, {words} words, {records} records")
}

// The leaves of literals 1 to 256, each noted as a member.
fn leaves(s: &mut [u32], members: &mut [u32; 256], m: Marks) -> Option<Marks> {
    let mut n = m;
    for (i, member) in members.iter_mut().enumerate() {
        let leaf = records_append::leaf(s, n, 2 * i as u32 + 2)?;
        n = leaf.marks;
        *member = leaf.node;
    }
    Some(n)
}

// The leaves merged, and every output of the root defined.
fn define_merged(s: &mut [u32], c: &mut [i32]) -> Option<Marks> {
    let mut members = [0u32; 256];
    let m = leaves(s, &mut members, blank_marks(257))?;
    let root = totalizer_merge::merge(s, &members, m)?;
    totalizer_define::define_from(s, c, root.marks, root.node, 1, 256)
}

// The counts and the sum of 256 leaves merged.
fn merged<W: Write>(out: &mut W) -> io::Result<()> {
    let mut store = [0u32; 20472];
    let mut buffer = [0i32; 136704];
    let Some(
        Marks {
            records,
            fresh,
            clauses,
            words,
        },
    ) = define_merged(&mut store, &mut buffer)
    else {
        return Ok(());
    };
    let used = history_print::used_literals(&buffer, words);
    let sum = history_print::digest_of((0..used).map(|i| numbers::word_at(&buffer, i)));
    writeln!(out, "{records} records")?;
    writeln!(out, "{fresh} the next number")?;
    writeln!(out, "{clauses} clauses")?;
    writeln!(out, "{words} words")?;
    writeln!(out, "{sum} the sum")
}

fn main(rt: HostRuntime) -> io::Result<()> {
    let mut out = io::writer(&rt);
    worked(&mut out)?;
    merged(&mut out)
}
