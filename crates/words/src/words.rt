// Words of trees to be rewritten, from one slice to another: whether they may be, what that answers, and whether words begin with others. The rewritings
// themselves stand in the crate replace.
ghost use Rattle.std.specs.Prelude.{◌≡◌, length, ltb};
ghost use Rattle.words.specs.words.Words.{begins_with, sound};
ghost use Rattle.words.specs.words.Answers.{request_answer};

use crate::fault::Fault;
use crate::layout::{KINDS, SYM};
use crate::tokens::count_trees;

// Whether the trees of `tokens` can be rewritten by the tree `part` and the symbol `name` into `room` places.
pub fn check(tokens: &[u64], part: &[u64], name: u64, room: usize) -> Result<(), Fault>
    ensures { result ≡ request_answer (sound tokens.now part.now name) (ltb room (length tokens.now)) }
{
    count_trees(tokens).ok_or(Fault::Broken)?;
    let n = count_trees(part).ok_or(Fault::Broken)?;
    if n != 1 || name % KINDS != SYM {
        return Err(Fault::Broken);
    }
    if room < tokens.len() {
        return Err(Fault::NoRoom);
    }
    Ok(())
}

// Whether the words begin with those of `start`. No tree's words begin another's, so where `start` is one tree it is the
// first of the words. A loop, since the rewritings ask this at every word: the library's method costs a fifth more time
// there, and half as much again of the stack that they take where they call themselves.
#[tactic(auto, using(crate::proofs::words::Requests::begins_short, crate::proofs::words::Requests::begins_differs, crate::proofs::words::Requests::begins_all))]
pub fn starts_with(words: &[u64], start: &[u64]) -> bool
    ensures { result ≡ begins_with words.now start.now }
{
    if words.len() < start.len() {
        return false;
    }
    for (k, w) in start.iter().enumerate() {
        if words[k] != *w {
            return false;
        }
    }
    true
}
