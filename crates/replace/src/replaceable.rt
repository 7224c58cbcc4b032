// Whether words are formed as 01 has trees, which `replace` asks of what it rewrites: each operation has as many
// operands as its kind.
ghost use Rattle.std.specs.Prelude.{◌≡◌};
ghost use Rattle.spec_tree.specs.Bytes.{every};
ghost use Rattle.spec_tree.specs.Kinds.{arity_ok};
ghost use Rattle.node_rows.specs.kinds.Numbers.{kind_number};
ghost use Rattle.replace.specs.replacing.Replacing.{formed_word};

use node_rows::kinds::operands_ok;
use words::layout::{CONST, KINDS, SELECT, SELECT_OR};

// Whether a word is a leaf's, or an operation's with as many operands as its kind has.
#[tactic(auto, using(crate::proofs::replaceable::Tests::word_tests))]
fn is_formed(w: u64) -> bool
    ensures { result ≡ formed_word w }
{
    let kind = w % KINDS;
    let below = w / KINDS;
    if kind <= CONST {
        true
    } else if kind == SELECT_OR {
        operands_ok(SELECT, true, below)
    } else {
        kind < SELECT_OR && operands_ok(kind, false, below)
    }
}

// Whether all words are.
pub fn are_formed(tokens: &[u64]) -> bool
    ensures { result ≡ every formed_word tokens.now }
{
    tokens.iter().all(|w| is_formed(*w))
}
