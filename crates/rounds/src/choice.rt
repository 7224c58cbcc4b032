// The best candidate of a round of extraction, as a place among words of trees (01, "Extraction"): the greatest (uses -
// 1) * cost, then depth, then the last text, and of equals the one met first.
ghost use Rattle.std.specs.Prelude.{◌≡◌, cond, ◌*◌, ◌≤◌, ◌<◌, length, get_or};
ghost use Rattle.fmt.specs.checked.Check.{rows_in};
ghost use Rattle.laws.specs.positions.Places.{savings_at, candidate_at};
ghost use Rattle.rounds.specs.uses.Marks.{Complete};
ghost use Rattle.rounds.specs.choice.Leading.{Writable, Alike, Lead, leader_of, later_at, best_step, Leads};
ghost use Rattle.rounds.specs.choice.Places.{WorkedOut};
ghost use Rattle.rounds.specs.Answers.{Finds, Lent};

use crate::measure::{COST, DEPTH, PER_PLACE, SYMBOL};
use crate::outside::count_outside;
use crate::uses::has_switch;
use crate::value_numbers::{SIDES, class_tables};
use fmt::order::before_at;

// The best place so far and what it saves: 0 where there is none, since a candidate saves something.
#[derive(Clone, Copy, Debug, PartialEq, Eq)]
struct Leader {
    place: usize,
    savings: u64,
}

// Words of trees with what was worked out of their places: the facts and the class of each, and by its class how often
// each operation is there, and how often outside arms.
#[derive(Clone, Copy)]
struct Places<'a> {
    tokens: &'a [u64],
    scoped: bool,
    facts: &'a [u64],
    classes: &'a [u64],
    uses: &'a [u64],
    outside: &'a [u64],
}

impl Places<'_> {
    // How often the tree of an operation's place is used outside arms. In the flat form every place is outside.
    fn outside_uses(&self, place: usize, count: u64) -> u64
        requires { place < length self.now.outside.now }
        ensures { result ≡ cond self.now.scoped (get_or self.now.outside.now place 0) count }
    {
        if self.scoped {
            self.outside[place]
        } else {
            count
        }
    }

    // What binding the tree at i saves where it is a candidate, and else 0.
    fn savings_of(&self, i: usize) -> u64
        requires worked_out { WorkedOut self.now }
        requires i_in_bounds { i < length self.now.tokens.now }
        ensures { result ≡ cond (candidate_at self.now.tokens.now self.now.scoped i) (savings_at self.now.tokens.now i) 0 }
    {
        let row = PER_PLACE * i;
        let cost = self.facts[row + COST];
        if cost < 1 {
            return 0;
        }
        let place = (self.classes[i] / SIDES) as usize;
        let count = self.uses[place];
        if count < 2 || self.facts[row + SYMBOL] < 1 || self.outside_uses(place, count) < 1 {
            return 0;
        }
        (count - 1) * cost
    }

    // Of two places that save as much: whether the second is deeper, or as deep with a later text. Places of one class
    // have one tree.
    fn later(&self, rows: &[u64], text: &mut [u8], place: usize, i: usize) -> bool
        requires worked_out { WorkedOut self.now }
        requires place_in_bounds { (place < length self.now.tokens.now) × (i < length self.now.tokens.now) }
        requires writable { Writable rows.now self.now.tokens.now (length text.old) }
        ensures { result ≡ later_at rows.now self.now.tokens.now place i }
    {
        if self.classes[place] == self.classes[i] {
            return false;
        }
        let a = self.facts[PER_PLACE * place + DEPTH];
        let b = self.facts[PER_PLACE * i + DEPTH];
        if a != b {
            a < b
        } else {
            before_at(rows, self.tokens, place, i, text)
        }
    }

    // The leader after the place i was met.
    fn met(&self, rows: &[u64], text: &mut [u8], leader: Leader, i: usize) -> Leader
        requires worked_out { WorkedOut self.now }
        requires i_in_bounds { i < length self.now.tokens.now }
        requires writable { Writable rows.now self.now.tokens.now (length text.old) }
        requires lead { Lead self.now.tokens.now leader.place leader.savings }
        ensures { Lead self.now.tokens.now result.place result.savings × (leader_of result.place result.savings ≡ best_step rows.now self.now.tokens.now self.now.scoped (leader_of leader.place leader.savings) i) }
    {
        let savings = self.savings_of(i);
        if savings == 0 || savings < leader.savings {
            leader
        } else if savings > leader.savings || self.later(rows, text, leader.place, i) {
            Leader { place: i, savings }
        } else {
            leader
        }
    }

    // The leader after every place.
    fn search(&self, rows: &[u64], text: &mut [u8]) -> Leader
        requires worked_out { WorkedOut self.now }
        requires writable { Writable rows.now self.now.tokens.now (length text.old) }
        ensures { Leads rows.now self.now.tokens.now self.now.scoped result.place result.savings }
    {
        let mut leader = Leader {
            place: 0,
            savings: 0,
        };
        for i in 0..self.tokens.len() {
            leader = self.met(rows, text, leader, i);
        }
        leader
    }
}

// Whether the scoped form may differ from the flat one: some word is a switch.
fn with_arms(tokens: &[u64], scoped: bool) -> bool
    ensures { Alike tokens.now result scoped }
{
    scoped && has_switch(tokens)
}

// The place of the best candidate among the trees that the words are. What else is lent is worked in, and what is left
// there is free: the places outside arms are marked in `heads`, and counted in `next`, when these have served.
pub fn best_place(
    rows: &[u64],
    tokens: &[u64],
    scoped: bool,
    facts: &mut [u64],
    classes: &mut [u64],
    next: &mut [u64],
    heads: &mut [u64],
    uses: &mut [u64],
    text: &mut [u8],
) -> Option<usize>
    requires complete { Complete tokens.now × (length tokens.now ≤ 1927) × Writable rows.now tokens.now (length text.old) }
    requires lent { Lent (length tokens.now) (length facts.old) (length classes.old) (length next.old) (length heads.old) (length uses.old) }
    ensures { Finds (rows_in rows.now) tokens.now scoped result }
{
    class_tables(tokens, facts, classes, next, heads, uses);
    let arms = with_arms(tokens, scoped);
    count_outside(tokens, arms, classes, heads, next);
    let places = Places {
        tokens,
        scoped: arms,
        facts,
        classes,
        uses,
        outside: next,
    };
    let leader = places.search(rows, text);
    (leader.savings > 0).then_some(leader.place)
}
