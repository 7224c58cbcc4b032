// Which switches are fused in one match (01, "Scoped fusion"): those of equal kind, key, arm count and default, as places among words of trees; and the arms of one
// number of a group, as words one after another, which an arm's scope works on.
ghost use Rattle.std.specs.Prelude.{◌≡◌, ◌≤◌, ◌<◌, ◌+◌, length, drop, T, leb, true, ◌++◌};
ghost use Rattle.words.specs.words.Words.{Complete};
ghost use Rattle.laws.specs.positions.Places.{numbered_at};
ghost use Rattle.laws.specs.switches.Groups.{joins_at, group_first, member_places};
ghost use Rattle.fusion.specs.groups.Answers.{groups_at, switch_stands, all_stand, Front, GroupsWritten, groups_answer};
ghost use Rattle.spec_tree.specs.Facts.{size};
ghost use Rattle.laws.specs.switches.Switches.{arm_place};
ghost use Rattle.laws.specs.switches.Columns.{column_words};
ghost use Rattle.fusion.specs.groups.Copying.{armed_at, all_armed, copying};

use crate::switches::{equal_trees, is_switch};
use crate::tables::put;
use words::fault::Fault;
use words::tokens::{count_trees, end_of, operand_count};

// Whether a switch is at p.
fn stands(tokens: &[u64], p: usize) -> bool
    ensures { result ≡ switch_stands tokens.now p }
{
    p < tokens.len() && is_switch(tokens[p])
}

// Whether a switch is at each of the places.
pub(crate) fn all_stand(tokens: &[u64], places: &[u64]) -> bool
    ensures { result ≡ all_stand tokens.now places.now }
{
    places.iter().all(|p| stands(tokens, *p as usize))
}

// Whether the switches at two places are fused in one match. A switch's word holds its kind and how many arms it has; its key stands right after it.
fn joins(tokens: &[u64], p: usize, q: usize) -> bool
    requires complete { Complete tokens.now }
    requires t { T (switch_stands tokens.now p) × T (switch_stands tokens.now q) }
    ensures { result ≡ joins_at tokens.now p q }
{
    tokens[p] == tokens[q] && equal_trees(tokens, p + 1, q + 1)
}

// The number of the first place whose switch that of place number i joins, which is i itself where it opens a group.
fn first_joined(tokens: &[u64], places: &[u64], i: usize) -> usize
    requires complete { Complete tokens.now × (i < length places.now) }
    requires t { T (all_stand tokens.now places.now) }
    ensures { result ≡ group_first tokens.now places.now i }
{
    for j in 0..i {
        if joins(tokens, places[j] as usize, places[i] as usize) {
            return j;
        }
    }
    i
}

// Writes the members of the group that place number i opens, and returns how many there are. None stands before i.
fn write_group(tokens: &[u64], places: &[u64], i: usize, members: &mut [u64]) -> usize
    requires complete { Complete tokens.now × (i < length places.now) }
    requires t { T (all_stand tokens.now places.now) }
    requires i_value { group_first tokens.now places.now i ≡ i }
    requires i_in_bounds { length (member_places tokens.now places.now i) ≤ length members.old }
    ensures { Front (member_places tokens.now places.now i) members.old result members.new }
{
    let mut n = 0;
    for j in i..places.len() {
        if joins(tokens, places[i] as usize, places[j] as usize) {
            members[n] = places[j];
            n += 1;
        }
    }
    n
}

// Writes all groups in the order of their first members, and returns how many there are.
fn write_groups(tokens: &[u64], places: &[u64], members: &mut [u64], ends: &mut [u64]) -> usize
    requires complete { Complete tokens.now }
    requires t { T (all_stand tokens.now places.now) }
    requires places_in_bounds { (length places.now ≤ length members.old) × (length places.now ≤ length ends.old) }
    ensures { GroupsWritten (groups_at tokens.now places.now) members.old ends.old result members.new ends.new }
{
    let mut count = 0;
    let mut at = 0;
    for i in 0..places.len() {
        if first_joined(tokens, places, i) == i {
            at += write_group(tokens, places, i, &mut members[at..]);
            ends[count] = at as u64;
            count += 1;
        }
    }
    count
}

// The groups of the switches at the places: their members one after another, and where each group ends among them, both in front of what stood after as many.
pub fn group_switches(
    tokens: &[u64],
    places: &[u64],
    members: &mut [u64],
    ends: &mut [u64],
) -> Result<usize, Fault>
    ensures { (result ≡ (groups_answer tokens.now places.now members.old ends.old).answer)
        × (members.new ≡ (groups_answer tokens.now places.now members.old ends.old).members)
        × (ends.new ≡ (groups_answer tokens.now places.now members.old ends.old).ends) }
{
    if count_trees(tokens).is_none() || !all_stand(tokens, places) {
        return Err(Fault::Broken);
    }
    if members.len() < places.len() || ends.len() < places.len() {
        return Err(Fault::NoRoom);
    }
    Ok(write_groups(tokens, places, members, ends))
}

// Whether a switch stands at a place, with such an arm. Its first operand is its key.
fn has_arm(tokens: &[u64], arm: usize, place: usize) -> bool
    ensures { result ≡ armed_at tokens.now arm place }
{
    stands(tokens, place) && (arm as u64) < operand_count(tokens[place]) - 1
}

// Whether one does at each place.
fn have_arm(tokens: &[u64], arm: usize, group: &[u64]) -> bool
    ensures { result ≡ all_armed tokens.now arm group.now }
{
    group
        .iter()
        .all(|place| has_arm(tokens, arm, *place as usize))
}

// The place after the tree at a place.
fn after_tree(tokens: &[u64], at: usize) -> usize
    requires { Complete tokens.now × (at < length tokens.now) }
    ensures { result ≡ at + size (numbered_at tokens.now at) }
{
    end_of(tokens, at).unwrap()
}

// Where an arm of a switch begins: its key is right after it, and the arms are after the key.
fn arm_start(tokens: &[u64], place: usize, arm: usize) -> usize
    requires { Complete tokens.now × (armed_at tokens.now arm place ≡ true) }
    ensures { result ≡ arm_place tokens.now place arm }
{
    let mut at = after_tree(tokens, place + 1);
    for _ in 0..arm {
        at = after_tree(tokens, at);
    }
    at
}

// Whether the arms are at most so many words.
fn arms_fit(tokens: &[u64], group: &[u64], arm: usize, room: usize) -> bool
    requires { Complete tokens.now × (all_armed tokens.now arm group.now ≡ true) }
    ensures { result ≡ leb (length (column_words tokens.now group.now arm)) room }
{
    let mut left = room;
    for place in group {
        let from = arm_start(tokens, *place as usize, arm);
        let to = after_tree(tokens, from);
        if to - from > left {
            return false;
        }
        left -= to - from;
    }
    true
}

// Writes the arms to the front of out, and answers how many words they are.
fn write_arms(tokens: &[u64], group: &[u64], arm: usize, out: &mut [u64]) -> usize
    requires complete { Complete tokens.now × (all_armed tokens.now arm group.now ≡ true) }
    requires arm_in_bounds { length (column_words tokens.now group.now arm) ≤ length out.old }
    ensures value { result ≡ length (column_words tokens.now group.now arm) }
    ensures out_after { out.new ≡ column_words tokens.now group.now arm
        ++ drop (length (column_words tokens.now group.now arm)) out.old }
{
    let mut n = 0;
    for place in group {
        let from = arm_start(tokens, *place as usize, arm);
        let to = after_tree(tokens, from);
        put(&tokens[from..to], n, out);
        n += to - from;
    }
    n
}

// Copies the arms of number `arm` of the switches at the places of a group, one after another, to the front of out.
pub fn copy_column(
    tokens: &[u64],
    group: &[u64],
    arm: usize,
    out: &mut [u64],
) -> Result<usize, Fault>
    ensures { (result ≡ (copying tokens.now group.now arm out.old).answer)
        × (out.new ≡ (copying tokens.now group.now arm out.old).out) }
{
    if count_trees(tokens).is_none() || !have_arm(tokens, arm, group) {
        return Err(Fault::Broken);
    }
    if !arms_fit(tokens, group, arm, out.len()) {
        return Err(Fault::NoRoom);
    }
    Ok(write_arms(tokens, group, arm, out))
}
