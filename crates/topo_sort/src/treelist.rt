// Where the trees that some words are begin, in order.
ghost use Rattle.std.specs.Prelude.{◌≡◌, ◌++◌, ◌≤◌, length, drop};
ghost use Rattle.std.proofs.Math.Option.{some};
ghost use Rattle.spec_tree.specs.Tokens.{trees_in};
ghost use Rattle.topo_sort.specs.treelist.Starts.{starts_of, tree_listing};

use words::fault::Fault;
use words::tokens::{count_trees, tree_end};

// Lists the places where the trees begin: no word lacks operands.
fn list(tokens: &[u64], count: usize, starts: &mut [u64])
    requires { (trees_in tokens.now ≡ some count) × (count ≤ length starts.old) }
    ensures { starts.new ≡ starts_of tokens.now ++ drop count starts.old }
{
    let mut at = 0;
    for n in 0..count {
        starts[n] = at as u64;
        at = tree_end(tokens, at);
    }
}

// The places where the trees begin, in front of what stood there, and how many trees there are.
pub fn list_trees(tokens: &[u64], starts: &mut [u64]) -> Result<usize, Fault>
    ensures { (result ≡ (tree_listing tokens.now starts.old).answer)
        × (starts.new ≡ (tree_listing tokens.now starts.old).out) }
{
    let count = count_trees(tokens).ok_or(Fault::Broken)?;
    if starts.len() < count {
        return Err(Fault::NoRoom);
    }
    list(tokens, count, starts);
    Ok(count)
}
