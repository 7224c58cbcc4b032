// Whether words are the rows of an answer (01, "Turned down", refusal 13): by kind, operand count, earlier reference,
// name and constant. The parts of an answer are read from left to right, each function telling where its part ends. Any
// words may come, and any node rows.
ghost use Rattle.std.specs.Prelude.{◌≡◌, ◌&&◌, ◌+◌, ◌-◌, ◌/◌, ◌%◌, ◌≤◌, ◌<◌, ◌*◌, ◌==◌, min, leb, length, get_or, take, drop};
ghost use Rattle.spec_tree.specs.Bytes.{every};
ghost use Rattle.spec_tree.specs.Kinds.{is_switch, arity_ok};
ghost use Rattle.fmt.specs.checked.Check.{rows_in};
ghost use Rattle.laws.specs.answer.First.{has_name, none_named, first_row, first_word};
ghost use Rattle.spec_cse.specs.AnswerRows.{rows_of_answer, answer_laid_out};
ghost use Rattle.laws.specs.answer.Seen.{names_bind, binds, entered, bound_by, use_ok, seen, occurs, a_match, a_binding, once};
ghost use Rattle.laws.specs.answer.Fronts.{statement_row, TreeFront, ValuesFront, StmtFront, StmtsFront, ArmsFront, AnswerRows, Results};
ghost use Rattle.print.specs.answers.Said.{row_at, Says, Counts, Names, Heads, Tells, Spans, Ways};

use crate::depth::{no_deeper, stands_below};
use fmt::checked::tree_ok;
use node_rows::kinds::operands_ok;
use words::layout::{
    ARM, BRANCH, BRANCH_ROW, CLASSES, KINDS, LET, LET_CLASS, MATCH_CLASS, NAME, RESULT, ROW_WIDTH,
    SELECT, SELECT_OR_ROW, SYM, VALUE,
};

const MOST_FIELDS: u64 = 32;

// Parts of one kind: the place after them, and how many they are.
#[derive(Clone, Copy, Debug, PartialEq, Eq)]
struct Several {
    end: usize,
    count: usize,
}

// A match up to its arms: where they start, how many names there are, and how many arms.
#[derive(Clone, Copy, Debug, PartialEq, Eq)]
struct Opening {
    start: usize,
    names: usize,
    arms: usize,
}

// A step on the way to a place has three outcomes, one more than an Option or a Result: on to a later place, or it is
// known whether the name is bound.
#[derive(Clone, Copy, Debug, PartialEq, Eq)]
enum Step {
    On(usize),
    Bound,
    Unbound,
}

// A row's kind and its fields are read apart, and not by fmt's `row_name`, which gives the same empty name for a row that
// is no symbol's and for a symbol without fields: which row is the first of a name needs the two told apart.
fn is_symbol(rows: &[u64], row: usize) -> bool
    requires { row < length rows.now / 35 }
    ensures { result ≡ (get_or rows.now (row * 35) 0 == 0 && get_or rows.now (row * 35 + 1) 0 == 0) }
{
    rows[row * ROW_WIDTH] == SYM && rows[row * ROW_WIDTH + 1] == 0
}

// The fields of a row, as a name has them. A row that says that it has more than a row holds has those that are there.
fn fields(rows: &[u64], row: usize) -> &[u64]
    requires { row < length rows.now / 35 }
    ensures { result.now ≡ take (min (get_or rows.now (row * 35 + 2) 0) 32) (drop (row * 35 + 3) rows.now) }
{
    let start = row * ROW_WIDTH + 3;
    let count = rows[row * ROW_WIDTH + 2].min(MOST_FIELDS) as usize;
    &rows[start..start + count]
}

// Whether a row is a symbol's of that name.
fn named(rows: &[u64], row: usize, name: &[u64]) -> bool
    requires { row < length rows.now / 35 }
    ensures { result ≡ has_name (row_at rows.now row) name.now }
{
    is_symbol(rows, row) && fields(rows, row) == name
}

// Whether no row before row n is a symbol's of this name.
fn none_named(rows: &[u64], n: usize, name: &[u64]) -> bool
    requires { n ≤ length rows.now / 35 }
    ensures { result ≡ none_named (take n (rows_in rows.now)) name.now }
{
    for i in 0..n {
        if named(rows, i, name) {
            return false;
        }
    }
    true
}

// Whether a row is a symbol's, and no row before it has its name.
fn row_first(rows: &[u64], n: u64) -> bool
    ensures { result ≡ first_row (rows_in rows.now) n }
{
    if n >= (rows.len() / ROW_WIDTH) as u64 {
        return false;
    }
    let row = n as usize;
    is_symbol(rows, row) && none_named(rows, row, fields(rows, row))
}

fn word_first(rows: &[u64], w: u64) -> bool
    ensures { result ≡ first_word (rows_in rows.now) w }
{
    let code = w / KINDS;
    w % KINDS != SYM || code % CLASSES != 0 || row_first(rows, code / CLASSES)
}

fn all_first(rows: &[u64], words: &[u64]) -> bool
    ensures { result ≡ every (first_word (rows_in rows.now)) words.now }
{
    words.iter().all(|w| word_first(rows, *w))
}

// Whether the tree at a place is one that print takes, with each symbol of the list by the first row that has its name.
fn tree(rows: &[u64], words: &[u64], at: usize) -> Option<usize>
    ensures { Says (TreeFront (rows_in rows.now)) words.now at result }
{
    let end = tree_ok(rows, words, at)?;
    all_first(rows, &words[at..end]).then_some(end)
}

// As many values of an arm as its match has names.
fn values(rows: &[u64], words: &[u64], at: usize, count: usize) -> Option<usize>
    requires { at ≤ length words.now }
    ensures { Says (ValuesFront (rows_in rows.now) 35 count) words.now at result }
{
    let mut i = at;
    for _ in 0..count {
        if i >= words.len() || words[i] != VALUE {
            return None;
        }
        i = tree(rows, words, i + 1)?;
    }
    Some(i)
}

// Results up to the last word.
fn results(rows: &[u64], words: &[u64], at: usize) -> bool
    requires { at ≤ length words.now }
    ensures { Tells (Results (rows_in rows.now) (drop at words.now)) result }
{
    let mut i = at;
    // A turn passes a whole tree.
    while i < words.len() {
        if words[i] != RESULT {
            return false;
        }
        let Some(end) = tree(rows, words, i + 1) else {
            return false;
        };
        i = end;
    }
    true
}

// The place after the match names that stand at a place.
fn names(words: &[u64], at: usize) -> usize
    requires { at ≤ length words.now }
    ensures { Names words.now at result }
{
    for i in at..words.len() {
        let w = words[i];
        if w % KINDS != NAME || w / KINDS % CLASSES != MATCH_CLASS {
            return i;
        }
    }
    words.len()
}

// Whether a match of this row may have so many arms and its key: its switch has as many operands.
fn switch_fits(row: u64, operands: u64) -> bool
    requires { (30 ≤ row) × (row ≤ 32) }
    ensures { result ≡ (is_switch (row - 4) && arity_ok (row - 4) operands) }
{
    let kind = if row == BRANCH_ROW { BRANCH } else { SELECT };
    operands_ok(kind, row == SELECT_OR_ROW, operands)
}

fn is_match(w: u64) -> bool
    ensures { result ≡ a_match w }
{
    (BRANCH_ROW..NAME).contains(&(w % KINDS))
}

// A match up to its arms: its key, and its names. Below its row stand these and its arms, which are as many as the row
// has room for.
fn head(rows: &[u64], words: &[u64], at: usize) -> Option<Opening>
    requires { at < length words.now }
    ensures { Heads (rows_in rows.now) words.now at result }
{
    let w = words[at];
    if !is_match(w) {
        return None;
    }
    let first = tree(rows, words, at + 1)?;
    let start = names(words, first);
    let names = start - first;
    let below = (w / KINDS) as usize;
    if names == 0 || below <= names {
        return None;
    }
    let fits = switch_fits(w % KINDS, (below - names) as u64);
    fits.then_some(Opening {
        start,
        names,
        arms: below - 1 - names,
    })
}

// A let: its name is one that a let binds, and its expression stands after its row.
fn binding(rows: &[u64], words: &[u64], at: usize) -> Option<usize>
    requires at_in_bounds { at < length words.now }
    requires at_value { get_or words.now at 0 % 64 ≡ 29 }
    ensures { Says (StmtFront (rows_in rows.now)) words.now at result }
{
    if words[at] / KINDS % CLASSES != LET_CLASS {
        return None;
    }
    tree(rows, words, at + 1)
}

// A let or a match.
#[cycle(arm_arms_statement_statements)]
fn statement(rows: &[u64], words: &[u64], at: usize) -> Option<usize>
    requires { at < length words.now }
    ensures { Says (StmtFront (rows_in rows.now)) words.now at result }
{
    if words[at] % KINDS == LET {
        return binding(rows, words, at);
    }
    let opening = head(rows, words, at)?;
    arms(rows, words, opening.start, opening.names, opening.arms)
}

fn is_statement(w: u64) -> bool
    ensures { result ≡ statement_row w }
{
    (LET..NAME).contains(&(w % KINDS))
}

// Statements as long as there is one.
#[cycle(arm_arms_statement_statements)]
fn statements(rows: &[u64], words: &[u64], at: usize) -> Option<Several>
    requires { at ≤ length words.now }
    ensures { Counts (StmtsFront (rows_in rows.now)) words.now at result }
{
    let mut i = at;
    let mut count: usize = 0;
    // A turn passes a whole statement.
    while i < words.len() && is_statement(words[i]) {
        i = statement(rows, words, i)?;
        count += 1;
    }
    Some(Several { end: i, count })
}

// The arms of a match, each with a value for each of its names.
#[cycle(arm_arms_statement_statements)]
fn arms(rows: &[u64], words: &[u64], at: usize, bound: usize, count: usize) -> Option<usize>
    requires at_in_bounds { at ≤ length words.now }
    requires le_bound { (1 ≤ bound) × (bound ≤ length words.now) }
    ensures { Says (ArmsFront (rows_in rows.now) bound count) words.now at result }
{
    let mut i = at;
    for _ in 0..count {
        i = arm(rows, words, i, bound)?;
    }
    Some(i)
}

// An arm: below its row stand its statements and its values.
#[cycle(arm_arms_statement_statements)]
fn arm(rows: &[u64], words: &[u64], at: usize, bound: usize) -> Option<usize>
    requires at_in_bounds { at ≤ length words.now }
    requires le_bound { (1 ≤ bound) × (bound ≤ length words.now) }
    ensures { Says (ArmsFront (rows_in rows.now) bound 1) words.now at result }
{
    if at >= words.len() || words[at] % KINDS != ARM {
        return None;
    }
    let s = statements(rows, words, at + 1)?;
    if (words[at] / KINDS) as usize != s.count + bound {
        return None;
    }
    values(rows, words, s.end, bound)
}

// Whether the words are an answer's rows but for its references.
fn shaped(rows: &[u64], words: &[u64]) -> bool
    ensures { Tells (AnswerRows (rows_in rows.now) words.now) result }
{
    let Some(s) = statements(rows, words, 0) else {
        return false;
    };
    results(rows, words, s.end)
}

// Where the span at a place ends, if that is at `by` or before it. `left` spans are still to come, and each is a word
// at least.
fn span_end(words: &[u64], at: usize, by: usize) -> Option<usize>
    requires { (at ≤ by) × (by ≤ length words.now) }
    ensures { Spans words.now at by result }
{
    let mut left: usize = 1;
    for i in at..by {
        left = left - 1 + stands_below(words[i]) as usize;
        if left == 0 {
            return Some(i + 1);
        }
        if left > by - (i + 1) {
            return None;
        }
    }
    None
}

// Whether one of the match names at a place has this code.
fn names_bind(words: &[u64], at: usize, code: u64) -> bool
    requires { at ≤ length words.now }
    ensures { result ≡ names_bind code (drop at words.now) }
{
    for w in &words[at..] {
        if *w % KINDS != NAME {
            return false;
        }
        if *w / KINDS == code {
            return true;
        }
    }
    false
}

// Whether the statement at a place binds the name of this code: a let its own, a match those after its key.
fn binds(words: &[u64], at: usize, code: u64) -> bool
    requires { at < length words.now }
    ensures { result ≡ binds code (get_or words.now at 0) (drop (at + 1) words.now) }
{
    let w = words[at];
    if w % KINDS == LET {
        return w / KINDS == code;
    }
    if !is_match(w) {
        return false;
    }
    let Some(end) = span_end(words, at + 1, words.len()) else {
        return false;
    };
    names_bind(words, end, code)
}

// Whether statements stand below a row: a match's or an arm's.
fn is_entered(w: u64) -> bool
    ensures { result ≡ entered w }
{
    is_match(w) || w % KINDS == ARM
}

// One step on the way from i to a later place: past a span that ends before it, which may bind the name, or below a row
// that statements stand below.
fn way(words: &[u64], i: usize, at: usize, code: u64) -> Step
    requires { (i < at) × (at ≤ length words.now) }
    ensures { Ways words.now code i at result }
{
    match span_end(words, i, at) {
        Some(end) => {
            if binds(words, i, code) {
                Step::Bound
            } else {
                Step::On(end)
            }
        }
        None => {
            if is_entered(words[i]) {
                Step::On(i + 1)
            } else {
                Step::Unbound
            }
        }
    }
}

// Whether a name is bound on the way to a place: before it, and in a scope that the place is in.
fn bound_at(words: &[u64], at: usize, code: u64) -> bool
    requires { at ≤ length words.now }
    ensures { result ≡ bound_by code 0 at words.now }
{
    let mut i = 0;
    // A turn passes a whole span or enters it.
    while i < at {
        match way(words, i, at, code) {
            Step::On(next) => i = next,
            Step::Bound => return true,
            Step::Unbound => return false,
        }
    }
    false
}

// Whether the word at a place, if it is a use of a name, uses one that is bound there.
fn use_ok(words: &[u64], at: usize) -> bool
    requires { at < length words.now }
    ensures { result ≡ use_ok words.now at }
{
    let w = words[at];
    let code = w / KINDS;
    w % KINDS != SYM || code % CLASSES == 0 || bound_at(words, at, code)
}

fn in_scope(words: &[u64]) -> bool
    ensures { result ≡ seen words.now 0 (length words.now) }
{
    for i in 0..words.len() {
        if !use_ok(words, i) {
            return false;
        }
    }
    true
}

// A let's row, or a match name's.
fn is_binding(w: u64) -> bool
    ensures { result ≡ a_binding w }
{
    let class = w / KINDS % CLASSES;
    w % KINDS == LET && class == LET_CLASS || w % KINDS == NAME && class == MATCH_CLASS
}

// Whether the row at a place binds a name that a later row binds too: then the two rows are one word.
fn repeated(words: &[u64], at: usize) -> bool
    requires { at < length words.now }
    ensures { result ≡ (a_binding (get_or words.now at 0) && occurs (get_or words.now at 0) (drop (at + 1) words.now)) }
{
    is_binding(words[at]) && words[at + 1..].contains(&words[at])
}

fn bound_once(words: &[u64]) -> bool
    ensures { result ≡ once words.now }
{
    for i in 0..words.len() {
        if repeated(words, i) {
            return false;
        }
    }
    true
}

// Whether words are the rows of an answer over the symbols of these node rows: each of its parts as extract lays it
// out, each name bound once, and used only later and in its scope.
fn rows_of_answer(node_rows: &[u64], answer: &[u64]) -> bool
    ensures { result ≡ rows_of_answer (rows_in node_rows.now) answer.now }
{
    shaped(node_rows, answer) && bound_once(answer) && in_scope(answer)
}

// Whether extract could lay out these rows. How deep they stand is tested first, by a loop: what comes after it calls
// itself down the rows.
pub fn check_answer(node_rows: &[u64], answer: &[u64]) -> bool
    ensures { result ≡ answer_laid_out (rows_in node_rows.now) answer.now }
{
    no_deeper(answer) && rows_of_answer(node_rows, answer)
}
