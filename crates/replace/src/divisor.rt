// `replace_divisor` of the source (01, "Reciprocals"), on words of trees: each division by a given tree becomes a
// product with a new name, from one slice to another.
ghost use Rattle.std.specs.Prelude.{◌≡◌, ◌<◌, ◌≤◌, length};
ghost use Rattle.std.proofs.Math.Option.{some};
ghost use Rattle.spec_tree.specs.Tokens.{kind_of, trees_in};
ghost use Rattle.spec_rewrite.specs.Rewrite.{replace_divisor};
ghost use Rattle.words.specs.words.Words.{tree_of, name_of, Complete, Writes};
ghost use Rattle.words.specs.words.Answers.{rewriting};
ghost use Rattle.replace.specs.divisor.Division.{division_of};

use words::fault::Fault;
use words::layout::{DIV, KINDS, PRODUCT};
use words::tokens::end_of;
use words::words::{check, starts_with};

// A division: the places after its first operand and after the whole.
#[derive(Clone, Copy, Debug, PartialEq, Eq)]
struct Division {
    second: usize,
    end: usize,
}

// Whether the first tree is a division by the divisor: its second operand is. More operands than two are passed over.
fn first_division(tokens: &[u64], divisor: &[u64]) -> Option<Division>
    requires tokens_nonzero { (0 < length tokens.now) × Complete tokens.now }
    requires divisor_value { trees_in divisor.now ≡ some 1 }
    ensures { result ≡ division_of tokens.now divisor.now }
{
    let w = tokens[0];
    if w % KINDS != DIV || w / KINDS < 2 {
        return None;
    }
    let second = end_of(tokens, 1)?;
    if !starts_with(&tokens[second..], divisor) {
        return None;
    }
    let end = end_of(tokens, 0)?;
    Some(Division { second, end })
}

// Rewrites the words from the left and returns how many were written. A division by the divisor becomes a Mul of its
// first operand, which is rewritten by a call of its own, and the name; any other node stays.
fn rewrite(tokens: &[u64], divisor: &[u64], name: u64, out: &mut [u64]) -> usize
    requires complete { Complete tokens.now }
    requires divisor_value { (trees_in divisor.now ≡ some 1) × (kind_of name ≡ 0) }
    requires tokens_in_bounds { length tokens.now ≤ length out.old }
    ensures { Writes (replace_divisor (tree_of divisor.now) (name_of name)) tokens.now out.old result out.new }
{
    let mut i = 0;
    let mut o = 0;
    // A while, since a division is passed over at once.
    while i < tokens.len() {
        match first_division(&tokens[i..], divisor) {
            Some(division) => {
                out[o] = PRODUCT;
                let from = i + 1;
                let to = i + division.second;
                let rest = o + 1;
                let n = rewrite(&tokens[from..to], divisor, name, &mut out[rest..]);
                let last = rest + n;
                out[last] = name;
                i += division.end;
                o = last + 1;
            }
            None => {
                out[o] = tokens[i];
                i += 1;
                o += 1;
            }
        }
    }
    o
}

// Each `a / divisor` in the trees becomes `a * name`.
pub fn replace_divisor(
    tokens: &[u64],
    divisor: &[u64],
    name: u64,
    out: &mut [u64],
) -> Result<usize, Fault>
    ensures { (result ≡ (rewriting replace_divisor tokens.now divisor.now name out.old).answer)
        × (out.new ≡ (rewriting replace_divisor tokens.now divisor.now name out.old).out) }
{
    check(tokens, divisor, name, out.len())?;
    Ok(rewrite(tokens, divisor, name, out))
}
