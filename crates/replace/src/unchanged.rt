// `replace` for callers who want their words as they were where a coefficient is refused: what stood there is kept in a
// third part of the places that are lent, and put back.
ghost use Rattle.std.specs.Prelude.{◌≡◌, ◌+◌, ◌*◌, ◌/◌, ◌≤◌, length};
ghost use Rattle.words.specs.words.Words.{tree_of, name_of};
ghost use Rattle.replace.specs.closed.Closed.{endless};
ghost use Rattle.replace.specs.replacing.Replacing.{replaceable};
ghost use Rattle.replace.specs.replacing.Deciding.{rewritten_words};
ghost use Rattle.replace.specs.Answers.{replacement, Leaves, short_of_room};
ghost use Rattle.replace.specs.unchanged.Unchanged.{unchanged, Kept};

use crate::ReplaceError;
use words::copying::{copy, put};

// Keeps the first n words at a place, where they are as many and there is room for them.
fn keep(words: &[u64], n: usize, at: usize, places: &mut [u64])
    requires { at ≤ length places.old }
    ensures { Kept words.now n at places.old places.new }
{
    if n <= words.len() && n <= places.len() - at {
        put(&words[..n], at, places);
    }
}

// Each node equal to the target becomes the name, and so do the target's factors in a product, as often as they are all
// there. Only answered words are written.
pub fn replace_or_leave(
    tokens: &[u64],
    target: &[u64],
    name: u64,
    places: &mut [u64],
    out: &mut [u64],
) -> Result<usize, ReplaceError>
    ensures { Leaves (unchanged (replacement (replaceable tokens.now target.now name)
        (short_of_room tokens.now target.now (2 * (length places.old / 3)) (length out.old)) (endless (tree_of target.now) (name_of name))
        (rewritten_words target.now name tokens.now) tokens.now out.old) out.old) result out.new }
{
    let room = 2 * (places.len() / 3);
    keep(out, tokens.len(), room, places);
    match crate::replace(tokens, target, name, &mut places[..room], out) {
        Ok(n) => Ok(n),
        Err(error) => {
            if let ReplaceError::Refused = error {
                copy(&places[room..room + tokens.len()], out);
            }
            Err(error)
        }
    }
}
