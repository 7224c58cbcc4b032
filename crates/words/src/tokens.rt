// Trees as words, one u64 a node before its operands (Tokens): how many trees the words are, where a tree ends, and
// whether two trees are equal. Each function takes any words at all, and answers None where a word lacks operands, but
// for `tree_end`.
ghost use Rattle.std.specs.Prelude.{◌≡◌, ◌+◌, ◌≤◌, length, take, drop};
ghost use Rattle.spec_tree.specs.Bytes.{eq_bytes};
ghost use Rattle.spec_tree.specs.Tokens.{takes, trees_in, run_at, same_at};
ghost use Rattle.words.specs.tokens.Answers.{count_answer, end_answer, There, EndsAt, same_answer};

use crate::layout::{CONST, KINDS};

// How many of the trees after a word are its operands: none after a symbol or a constant.
pub fn operand_count(w: u64) -> u64
    ensures { result ≡ takes w }
{
    if w % KINDS <= CONST { 0 } else { w / KINDS }
}

// How many trees the words are. Read from the right, a word takes its operands off the trees found so far and is one itself.
pub fn count_trees(tokens: &[u64]) -> Option<usize>
    ensures { result ≡ count_answer (trees_in tokens.now) }
{
    let mut count: usize = 0;
    for w in tokens.iter().rev() {
        let operands = operand_count(*w) as usize;
        if operands > count {
            return None;
        }
        count = count - operands + 1;
    }
    Some(count)
}

// The place after the tree at `at`. `left` trees are still to come; more of them than words left can't be there, which
// also keeps the sum small.
pub fn end_of(tokens: &[u64], at: usize) -> Option<usize>
    ensures { result ≡ end_answer at (run_at tokens.now at) }
{
    let mut left: usize = 1;
    for i in at..tokens.len() {
        left = left - 1 + operand_count(tokens[i]) as usize;
        if left == 0 {
            return Some(i + 1);
        }
        if left > tokens.len() - (i + 1) {
            return None;
        }
    }
    None
}

// The same where a caller knows that the tree is there. A `for` over the words is no plainer: it would test each turn for
// an end that never comes first, and have an answer behind it that never comes up.
pub fn tree_end(tokens: &[u64], at: usize) -> usize
    requires { There tokens.now at }
    ensures { EndsAt tokens.now at result }
{
    let mut next = at;
    let mut due: usize = 1;
    while due > 0 {
        due = due - 1 + operand_count(tokens[next]) as usize;
        next += 1;
    }
    next
}

// Whether the trees at i and j are equal: their words are, as many of them and each the same.
pub fn same(tokens: &[u64], i: usize, j: usize) -> Option<bool>
    ensures { result ≡ same_answer (same_at tokens.now i j) }
{
    let e = end_of(tokens, i)?;
    let f = end_of(tokens, j)?;
    Some(tokens[i..e] == tokens[j..f])
}
