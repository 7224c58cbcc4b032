// `replace_outside_arms` of the source (01, "Scoped fusion"), on words of trees: each equal tree outside the arms of
// switches becomes a symbol, from one slice to another.
ghost use Rattle.std.specs.Prelude.{◌≡◌, ◌<◌, ◌≤◌, length};
ghost use Rattle.std.proofs.Math.Option.{some};
ghost use Rattle.spec_tree.specs.Tokens.{kind_of, trees_in};
ghost use Rattle.spec_rewrite.specs.Rewrite.{replace_outside_arms};
ghost use Rattle.words.specs.words.Words.{tree_of, name_of, Complete, Writes};
ghost use Rattle.words.specs.words.Answers.{rewriting};
ghost use Rattle.replace.specs.outside.Part.{part_of};

use words::copying::copy;
use words::fault::Fault;
use words::layout::{BRANCH, KINDS};
use words::tokens::end_of;
use words::words::{check, starts_with};

// What stands first in some words.
#[derive(Clone, Copy, Debug, PartialEq, Eq)]
enum Part {
    Target,
    // A switch: the places after its first operand and after the whole.
    Switch { key_end: usize, end: usize },
    // Any other node.
    Node,
}

// What stands first. A switch without operands has no key and no arms.
fn first_part(tokens: &[u64], target: &[u64]) -> Part
    requires tokens_nonzero { (0 < length tokens.now) × Complete tokens.now }
    requires target_value { trees_in target.now ≡ some 1 }
    ensures { result ≡ part_of tokens.now target.now }
{
    if starts_with(tokens, target) {
        return Part::Target;
    }
    let w = tokens[0];
    if w % KINDS < BRANCH || w / KINDS < 1 {
        return Part::Node;
    }
    let Some(key_end) = end_of(tokens, 1) else {
        return Part::Node;
    };
    let Some(end) = end_of(tokens, 0) else {
        return Part::Node;
    };
    Part::Switch { key_end, end }
}

// Rewrites the words from the left and returns how many were written. The key of a switch is rewritten by a call of its
// own, and its arms are copied.
fn rewrite(tokens: &[u64], target: &[u64], name: u64, out: &mut [u64]) -> usize
    requires complete { Complete tokens.now }
    requires target_value { (trees_in target.now ≡ some 1) × (kind_of name ≡ 0) }
    requires tokens_in_bounds { length tokens.now ≤ length out.old }
    ensures { Writes (replace_outside_arms (tree_of target.now) (name_of name)) tokens.now out.old result out.new }
{
    let mut i = 0;
    let mut o = 0;
    // A while, since the target and a switch are passed over at once.
    while i < tokens.len() {
        match first_part(&tokens[i..], target) {
            Part::Target => {
                out[o] = name;
                i += target.len();
                o += 1;
            }
            Part::Switch { key_end, end } => {
                out[o] = tokens[i];
                let from = i + 1;
                let to = i + key_end;
                let rest = o + 1;
                let n = rewrite(&tokens[from..to], target, name, &mut out[rest..]);
                let next = i + end;
                let last = rest + n;
                copy(&tokens[to..next], &mut out[last..]);
                i = next;
                o = last + (next - to);
            }
            Part::Node => {
                out[o] = tokens[i];
                i += 1;
                o += 1;
            }
        }
    }
    o
}

// Each tree equal to the target becomes the symbol, but for those in a switch's operands after the first.
pub fn replace_outside_arms(
    tokens: &[u64],
    target: &[u64],
    name: u64,
    out: &mut [u64],
) -> Result<usize, Fault>
    ensures { (result ≡ (rewriting replace_outside_arms tokens.now target.now name out.old).answer)
        × (out.new ≡ (rewriting replace_outside_arms tokens.now target.now name out.old).out) }
{
    check(tokens, target, name, out.len())?;
    Ok(rewrite(tokens, target, name, out))
}
