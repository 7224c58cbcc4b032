// `collect_switches` of the source: the switches outside arms (01, "Scoped fusion") as places among words of trees, each tree once, where it stands first.
ghost use Rattle.std.specs.Prelude.{◌≡◌, ◌<◌, length};
ghost use Rattle.spec_tree.specs.Tree.{eq_tree};
ghost use Rattle.words.specs.words.Words.{Complete};
ghost use Rattle.laws.specs.positions.Places.{numbered_at, among_places};
ghost use Rattle.laws.specs.switches.Switches.{switch_places, new_switch};
ghost use Rattle.fusion.specs.switches.Listing.{switch_word, Inside, Outsides, put_front, switch_error_of, listing};

use rounds::uses::mark_outside;
use words::fault::Fault;
use words::layout::{BRANCH, KINDS};
use words::tokens::{count_trees, same};

// Why not all switches are listed.
#[derive(Clone, Copy, Debug, PartialEq, Eq)]
pub enum SwitchError {
    // More switches than places; the first of them are written.
    TooMany,
    // A word lacks operands.
    Broken,
    // Fewer marks than words.
    NoRoom,
}

impl From<Fault> for SwitchError {
    ghost from_gives = { λ fault error. error ≡ switch_error_of fault };

    fn from(fault: Fault) -> SwitchError {
        match fault {
            Fault::Broken => SwitchError::Broken,
            Fault::NoRoom => SwitchError::NoRoom,
        }
    }
}

// Whether a word is a switch's. One without operands has no key and no arms.
pub fn is_switch(w: u64) -> bool
    ensures { result ≡ switch_word w }
{
    w % KINDS >= BRANCH && w / KINDS >= 1
}

// Whether the trees at two places are equal.
pub(crate) fn equal_trees(tokens: &[u64], i: usize, j: usize) -> bool
    requires complete { Complete tokens.now }
    requires i_in_bounds { (i < length tokens.now) × (j < length tokens.now) }
    ensures { result ≡ eq_tree (numbered_at tokens.now i) (numbered_at tokens.now j) }
{
    same(tokens, i, j).unwrap()
}

// Whether one of the places has the tree at q.
fn is_among(tokens: &[u64], list: &[u64], q: usize) -> bool
    requires complete { Complete tokens.now × (q < length tokens.now) }
    requires inside { Inside (length tokens.now) list.now }
    ensures { result ≡ among_places tokens.now q list.now }
{
    for p in list {
        if equal_trees(tokens, *p as usize, q) {
            return true;
        }
    }
    false
}

// Whether a switch outside arms stands at p, and none of the places met has its tree.
fn is_new(tokens: &[u64], marks: &[u64], met: &[u64], p: usize) -> bool
    requires complete { Complete tokens.now × (p < length tokens.now) }
    requires outsides { Outsides tokens.now marks.now × Inside (length tokens.now) met.now }
    ensures { result ≡ new_switch tokens.now met.now p }
{
    marks[p] != 0 && is_switch(tokens[p]) && !is_among(tokens, met, p)
}

// Lists the switches at marked places, each once. It stops at a switch that no place is left for.
fn list(tokens: &[u64], marks: &[u64], places: &mut [u64]) -> Result<usize, SwitchError>
    requires { Complete tokens.now × Outsides tokens.now marks.now }
    ensures { (result ≡ (put_front (switch_places tokens.now) places.old).answer)
        × (places.new ≡ (put_front (switch_places tokens.now) places.old).out) }
{
    let mut n = 0;
    for p in 0..tokens.len() {
        if is_new(tokens, marks, &places[..n], p) {
            if n >= places.len() {
                return Err(SwitchError::TooMany);
            }
            places[n] = p as u64;
            n += 1;
        }
    }
    Ok(n)
}

// The places of the switches outside arms, in front of what stood after as many; if there are more than places lent, the first of them. The marks are work space: what is left there is free.
pub fn list_switches(
    tokens: &[u64],
    marks: &mut [u64],
    places: &mut [u64],
) -> Result<usize, SwitchError>
    ensures { (result ≡ (listing tokens.now (length marks.old) places.old).answer)
        × (places.new ≡ (listing tokens.now (length marks.old) places.old).out) }
{
    if count_trees(tokens).is_none() {
        return Err(SwitchError::Broken);
    }
    mark_outside(tokens, true, marks)?;
    list(tokens, marks, places)
}
