// What start refuses, and the combined list that the check of its lines hands back.
#![tactic(auto)]

ghost use Rattle.std.specs.Prelude.{◌≡◌, true, not, List, ℕ, ◌+◌, ◌≤◌, ◌<◌, leb, ltb, nat_abs, length, get_or};
ghost use Rattle.rules.specs.Lists.{all};
ghost use Rattle.rules.specs.Numbers.{lawful, lawful_weight};
ghost use Rattle.rules.specs.Records.{word_literal};
ghost use Rattle.rules.specs.Combined.{combined_literals, combined_weights};
ghost use Rattle.rules.specs.Refusals.{lists_differ, literal_unlawful, fresh_unlawful, answer_of};
ghost use Rattle.rules.specs.Start.{checked, checked_end, start_refusal};
ghost use Rattle.start_lists.specs.Literals.{words};
ghost use Rattle.start_lists.specs.Lines.{Lines, Listed, lines_refusal, named_word, joined_word, combined_words};

use rules::{Combined, MOST_INPUTS, MOST_VARIABLE, MOST_WEIGHT, Refusal};

// Refusal 1: the lists differ in length, or are too long. Constant time.
fn lists_differ(lits: &[i32], weights: &[u64]) -> bool
    ensures { result ≡ lists_differ lits.now weights.now }
{
    lits.len() != weights.len() || MOST_INPUTS < lits.len()
}

// Refusal 2: a number is no literal. Linear.
fn literal_unlawful(lits: &[i32]) -> bool
    ensures { result ≡ literal_unlawful lits.now }
{
    // by index: signed numbers are read in `numbers` alone
    for i in 0..lits.len() {
        if !numbers::lawful_at(lits, i) {
            return true;
        }
    }
    false
}

// Refusal 4, of the lines one by one: a weight is 0 or too large. Linear.
fn weight_unlawful(weights: &[u64]) -> bool
    ensures { result ≡ not (all lawful_weight weights.now) }
{
    !weights.iter().all(|w| 1 <= *w && *w <= MOST_WEIGHT)
}

// Whether a lawful literal's variable is not below the number. Linear.
fn reaches(lits: &[i32], first: u32) -> bool
    ensures { result ≡ not (all (λ w. ltb (nat_abs (word_literal w)) first) (words lits.now)) }
{
    // by index: signed numbers are read in `numbers` alone
    for i in 0..lits.len() {
        if first <= numbers::variable(numbers::word_at(lits, i)) {
            return true;
        }
    }
    false
}

// Refusal 5, where every number is a literal: the first fresh number is none, or not above each variable. Linear.
fn fresh_unlawful(lits: &[i32], first: u32) -> bool
    ensures { all lawful lits.now ≡ true → result ≡ fresh_unlawful lits.now first }
{
    first == 0 || MOST_VARIABLE < first || reaches(lits, first)
}

// Refusals 1, 2 and 4, of the lines one by one. Linear.
fn check_lines(lits: &[i32], weights: &[u64]) -> Result<(), Refusal>
    ensures { result ≡ answer_of (lines_refusal lits.now weights.now) }
{
    if lists_differ(lits, weights) {
        Err(Refusal::ListsDiffer)
    } else if literal_unlawful(lits) {
        Err(Refusal::LiteralUnlawful)
    } else if weight_unlawful(weights) {
        Err(Refusal::WeightUnlawful)
    } else {
        Ok(())
    }
}

// The weights of the lines that name this word's literal, added. Linear.
fn weight_named(lits: &[i32], weights: &[u64], w: u32) -> u64
    requires { Lines lits.now weights.now }
    ensures { result ≡ named_word (words lits.now) weights.now w }
{
    let mut t: u64 = 0;
    for (i, weight) in weights.iter().enumerate() {
        if numbers::word_at(lits, i) == w {
            t += *weight;
        }
    }
    t
}

// The literal of line i, with all its weight, behind those listed unless it stands there. Linear.
fn join(lits: &[i32], weights: &[u64], i: usize, list: &mut Combined)
    requires { Lines lits.now weights.now × (list.old.used < 256) }
    ensures by_index { (xs : List ℕ) → Listed xs (words lits.now) weights.now list.old.literals list.old.weights list.old.used →
        Listed (joined_word xs (get_or (words lits.now) i 0)) (words lits.now) weights.now list.new.literals list.new.weights list.new.used }
    ensures few { list.new.used ≤ list.old.used + 1 }
{
    let w = numbers::word_at(lits, i);
    if !check_arrays::among(&list.literals[..list.used], w) {
        list.literals[list.used] = w;
        list.weights[list.used] = weight_named(lits, weights, w);
        list.used += 1;
    }
}

// The combined list of the lines. Quadratic, over at most 256 lines.
fn combine(lits: &[i32], weights: &[u64]) -> Combined
    requires { Lines lits.now weights.now }
    ensures { Listed (combined_words (words lits.now)) (words lits.now) weights.now result.literals result.weights result.used }
{
    let mut list = Combined {
        literals: [0; MOST_INPUTS],
        weights: [0; MOST_INPUTS],
        used: 0,
    };
    for i in 0..lits.len() {
        join(lits, weights, i, &mut list);
    }
    list
}

// Refusal 4, of the combined weights: one is too large. Linear.
fn heavy(added: &[u64]) -> bool
    ensures { result ≡ not (all (λ w. leb w 1048575) added.now) }
{
    !added.iter().all(|w| *w <= MOST_WEIGHT)
}

// The check of a list: its refusal, or the combined list. Linear but for combining, which is quadratic over at most 256 lines.
pub fn check_list(lits: &[i32], weights: &[u64]) -> Result<Combined, Refusal>
    ensures { result ≡ checked lits.now weights.now }
{
    check_lines(lits, weights)?;
    let list = combine(lits, weights);
    if heavy(&list.weights) {
        Err(Refusal::WeightUnlawful)
    } else {
        Ok(list)
    }
}

// The combined list of a start, or the first refusal. Growth as that of `check_list`.
pub fn checked_list(
    lits: &[i32],
    weights: &[u64],
    first: u32,
    store: &[u32],
) -> Result<Combined, Refusal>
    ensures { result
        ≡ checked_end (start_refusal lits.now weights.now first store.now) (combined_literals lits.now) (combined_weights lits.now weights.now) }
{
    let list = check_list(lits, weights)?;
    if fresh_unlawful(lits, first) {
        return Err(Refusal::FreshUnlawful);
    }
    if records::capacity(store) < 2 * list.used {
        return Err(Refusal::NoRoom);
    }
    Ok(list)
}
