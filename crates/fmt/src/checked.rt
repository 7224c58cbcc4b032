// Whether the tree at a place of some words is one that print takes (01, refusal 13): its kinds, operand counts, names and constants. Any words may come.
ghost use Rattle.std.specs.Prelude.{◌≡◌, ◌/◌, ◌%◌};
ghost use Rattle.spec_tree.specs.Bytes.{every};
ghost use Rattle.spec_tree.specs.Symbol.{is_name};
ghost use Rattle.spec_tree.specs.Passes.{of_paper, symbol_ok, operands_ok, tree_ok};
ghost use Rattle.spec_tree.specs.Tokens.{constant_at, name_in, name_by, run_at};
ghost use Rattle.fmt.specs.checked.Check.{rows_in, tree_in, word_ok, checked_answer};

use crate::symbols::row_name;
use node_rows::kinds;
use node_rows::names::is_name;
use words::layout::{CLASSES, CONST, KINDS, SELECT, SELECT_OR, SYM};
use words::tokens::end_of;

// 0, -1, 1, -2, .. have the codes 0, 1, 2, 3, ..: this is the code of 10^15 - 1, and the one before it is its negative's.
const LARGEST: u64 = 1999999999999998;

// A made name always passes, one of the list where there is such a row and its fields are a name.
fn symbol_ok(rows: &[u64], code: u64) -> bool
    ensures { result ≡ symbol_ok (name_by (name_in (rows_in rows.now)) (code % 3) (code / 3)) }
{
    code % CLASSES != 0 || is_name(row_name(rows, code / CLASSES))
}

fn constant_ok(code: u64) -> bool
    ensures { result ≡ of_paper (constant_at code) }
{
    code <= LARGEST
}

#[tactic(auto, using(crate::proofs::checked::WordLaws::right_counts), unfolding(spec_tree::specs::Kinds::arity_ok))]
fn operands_ok(kind: u64, count: u64) -> bool
    ensures { result ≡ operands_ok kind count }
{
    match kind {
        SYM..=CONST => false,
        SELECT_OR => kinds::operands_ok(SELECT, true, count),
        _ => kinds::operands_ok(kind, false, count),
    }
}

fn word_ok(rows: &[u64], w: u64) -> bool
    ensures { result ≡ word_ok (rows_in rows.now) w }
{
    let below = w / KINDS;
    match w % KINDS {
        SYM => symbol_ok(rows, below),
        CONST => constant_ok(below),
        kind => operands_ok(kind, below),
    }
}

fn words_ok(rows: &[u64], words: &[u64]) -> bool
    ensures { result ≡ every (word_ok (rows_in rows.now)) words.now }
{
    words.iter().all(|w| word_ok(rows, *w))
}

// Where the tree at `at` ends, if it is there and each of its words is one that print takes.
pub fn tree_ok(rows: &[u64], tokens: &[u64], at: usize) -> Option<usize>
    ensures { result ≡ checked_answer at (run_at tokens.now at) (tree_ok (tree_in (rows_in rows.now) tokens.now at)) }
{
    let end = end_of(tokens, at)?;
    words_ok(rows, &tokens[at..end]).then_some(end)
}
