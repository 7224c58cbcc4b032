// How often each tree stands outside arms (01, "Uses"), counted by its class. In the flat form all places are outside,
// and nothing is counted.
ghost use Rattle.std.specs.Prelude.{◌≡◌, ◌+◌, ◌≤◌, ◌<◌, length};
ghost use Rattle.spec_tree.specs.Tokens.{flag};
ghost use Rattle.rounds.specs.uses.Marks.{Complete, is_marked};
ghost use Rattle.rounds.specs.value_numbers.Tables.{Known, Counted, Uses};
ghost use Rattle.rounds.specs.choice.Leading.{HasOutside};

use crate::uses::mark_outside_arms;
use crate::value_numbers::{OPERATION, SIDES, reset};

// Counts a place by its class where it is a marked operation.
fn count_place(tokens: &[u64], marks: &[u64], classes: &[u64], outside: &mut [u64], i: usize)
    requires known { Known tokens.now 0 classes.now × (length tokens.now ≤ length marks.now) × (i < length tokens.now) }
    requires counted { Counted tokens.now (is_marked marks.now) (i + 1) outside.old }
    ensures { Counted tokens.now (is_marked marks.now) i outside.new }
{
    let class = classes[i];
    if class % SIDES < OPERATION {
        return;
    }
    let place = (class / SIDES) as usize;
    outside[place] += u64::from(marks[i] != 0);
}

// Counts the marked operations of each class.
fn tally(tokens: &[u64], marks: &[u64], classes: &[u64], outside: &mut [u64])
    requires complete { Complete tokens.now × Known tokens.now 0 classes.now × (length tokens.now ≤ length marks.now) }
    requires counted { Counted tokens.now (is_marked marks.now) (length tokens.now) outside.old }
    ensures { Uses tokens.now (is_marked marks.now) classes.now outside.new }
{
    for i in (0..tokens.len()).rev() {
        count_place(tokens, marks, classes, outside, i);
    }
}

// How many places outside arms have the tree of each class, in the scoped form. The marks are for the work.
pub fn count_outside(
    tokens: &[u64],
    scoped: bool,
    classes: &[u64],
    marks: &mut [u64],
    outside: &mut [u64],
)
    requires complete { Complete tokens.now × Known tokens.now 0 classes.now }
    requires tokens_in_bounds { (length tokens.now ≤ length marks.old) × (length tokens.now ≤ length outside.old) }
    ensures { HasOutside tokens.now scoped classes.now outside.new }
{
    if scoped {
        mark_outside_arms(tokens, marks);
        reset(outside, tokens.len(), 0);
        tally(tokens, marks, classes, outside);
    }
}
