// Which places of words of trees are outside arms (01, "Uses").
ghost use Rattle.std.specs.Prelude.{◌≡◌, ◌≤◌, ◌<◌, true, length};
ghost use Rattle.laws.specs.positions.Places.{outside_at};
ghost use Rattle.rounds.specs.uses.Marks.{Complete, Cleared, Ones, Arms, Marking, not_in_arms, switch_among};
ghost use Rattle.rounds.specs.uses.Answers.{mark_answer};

use words::fault::Fault;
use words::layout::{BRANCH, KINDS};
use words::tokens::{count_trees, end_of};

// Whether a word is a switch, which may have arms: where none is, every place is outside.
pub fn has_switch(tokens: &[u64]) -> bool
    ensures { result ≡ switch_among tokens.now (length tokens.now) }
{
    tokens.iter().any(|w| *w % KINDS >= BRANCH)
}

// Clears the arms of the switch at p, if there is one: past its first operand and up to its end.
fn clear_arms_of(tokens: &[u64], p: usize, marks: &mut [u64])
    requires complete { Complete tokens.now }
    requires p_in_bounds { (p < length tokens.now) × (length tokens.now ≤ length marks.old) }
    ensures { Arms tokens.now p marks.old marks.new }
{
    if tokens[p] % KINDS < BRANCH {
        return;
    }
    let Some(arms) = end_of(tokens, p + 1) else {
        return;
    };
    let Some(end) = end_of(tokens, p) else {
        return;
    };
    // A switch without operands has no arms: what follows it is another tree.
    if arms < end {
        marks[arms..end].fill(0);
    }
}

// Clears every place that is in an arm.
fn clear_arms(tokens: &[u64], marks: &mut [u64])
    requires complete { Complete tokens.now }
    requires ones { Ones marks.old (length tokens.now) marks.old }
    requires tokens_in_bounds { length tokens.now ≤ length marks.old }
    ensures { Marking tokens.now (not_in_arms tokens.now (length tokens.now)) marks.old marks.new }
{
    for p in 0..tokens.len() {
        clear_arms_of(tokens, p, marks);
    }
}

// Marks the places outside arms with 1 and the others with 0, where a caller knows that no word lacks an operand.
pub fn mark_outside_arms(tokens: &[u64], marks: &mut [u64])
    requires { Complete tokens.now × (length tokens.now ≤ length marks.old) }
    ensures { Marking tokens.now (outside_at tokens.now true) marks.old marks.new }
{
    marks[..tokens.len()].fill(1);
    clear_arms(tokens, marks);
}

// The same for any words at all. In the flat form all places are outside. NoRoom means fewer marks than words.
pub fn mark_outside(tokens: &[u64], scoped: bool, marks: &mut [u64]) -> Result<(), Fault>
    ensures { (result ≡ (mark_answer tokens.now scoped marks.old).answer)
        × (marks.new ≡ (mark_answer tokens.now scoped marks.old).marks) }
{
    if marks.len() < tokens.len() {
        return Err(Fault::NoRoom);
    }
    count_trees(tokens).ok_or(Fault::Broken)?;
    if scoped {
        mark_outside_arms(tokens, marks);
    } else {
        marks[..tokens.len()].fill(1);
    }
    Ok(())
}
