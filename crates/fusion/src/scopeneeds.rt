// Which statements of a scope some words read, put into a row of a table of bits (01, "Order"): lets and reciprocals by number come first, then the matches of
// the groups.
ghost use Rattle.std.specs.Prelude.{◌≡◌, true, ◌<◌, length};
ghost use Rattle.words.specs.words.Words.{Complete};
ghost use Rattle.laws.specs.switches.Switches.{switch_at};
ghost use Rattle.fusion.specs.place.Reads.{group_of, with_read, with_reads, arms_run};
ghost use Rattle.fusion.specs.scopeneeds.Marked.{with_let, with_match, arms_there, arms_marked};

use crate::groups::all_stand;
use words::bits::set;
use words::layout::{LET_NAME, MATCH_NAME, NEXT_NAME};
use words::tokens::{count_trees, end_of};

// The places in a row of the table.
const COLUMNS: usize = 2048;

// The names that a scope binds.
#[derive(Clone, Copy)]
pub struct Names<'a> {
    // Its lets bind `__xN`, so many of them by number from `first` on.
    pub first: u64,
    pub lets: usize,
    // Its matches bind `__mN`: the numbers of all members, and where each group ends among them.
    pub numbers: &'a [u64],
    pub ends: &'a [u64],
}

// The group that number i of all members is in: the first whose end it is before.
fn find_group(i: usize, ends: &[u64]) -> usize
    ensures { result ≡ group_of i 0 ends.now }
{
    ends.iter()
        .position(|end| (i as u64) < *end)
        .unwrap_or(ends.len())
}

impl<'a> Names<'a> {
    // Marks the let that binds `__xn`, if this scope does. The difference is compared, since the sum may be too large.
    fn mark_let(&self, n: u64, row: usize, table: &mut [u64])
        ensures { table.new ≡ with_let self.now.first self.now.lets n row table.old }
    {
        if n >= self.first && n - self.first < self.lets as u64 {
            set(table, row, (n - self.first) as usize);
        }
    }

    // Marks the match that binds `__mn`, if this scope does. With as many lets as a row has places it has none for a match.
    fn mark_match(&self, n: u64, row: usize, table: &mut [u64])
        ensures { table.new ≡ with_match self.now.lets self.now.numbers.now self.now.ends.now n row table.old }
    {
        let Some(p) = self.numbers.iter().position(|m| *m == n) else {
            return;
        };
        if self.lets < COLUMNS {
            set(table, row, self.lets + find_group(p, self.ends));
        }
    }

    // Marks the statement that binds one word's name.
    fn mark_read(&self, w: u64, row: usize, table: &mut [u64])
        ensures { table.new ≡ with_read self.now.first self.now.lets self.now.numbers.now self.now.ends.now w row table.old }
    {
        match w % NEXT_NAME {
            LET_NAME => self.mark_let(w / NEXT_NAME, row, table),
            MATCH_NAME => self.mark_match(w / NEXT_NAME, row, table),
            _ => {}
        }
    }

    // Marks the statements that bind the names among some words.
    pub fn mark_reads(&self, words: &[u64], row: usize, table: &mut [u64])
        ensures { table.new ≡ with_reads self.now.first self.now.lets self.now.numbers.now self.now.ends.now words.now row table.old }
    {
        for word in words {
            self.mark_read(*word, row, table);
        }
    }

    // Marks what the arms of one switch read: its words after its key.
    fn mark_switch(&self, tokens: &[u64], place: usize, row: usize, table: &mut [u64])
        requires { Complete tokens.now × ((place < length tokens.now) × (switch_at tokens.now place ≡ true)) }
        ensures { table.new ≡ with_reads self.now.first self.now.lets self.now.numbers.now self.now.ends.now (arms_run tokens.now place) row table.old }
    {
        let key = place + 1;
        let arms = end_of(tokens, key).unwrap();
        let end = end_of(tokens, place).unwrap();
        self.mark_reads(&tokens[arms..end], row, table);
    }

    // Marks what all arms of some switches read. False, and nothing is marked, where a word lacks operands or a place is no switch's.
    pub fn mark_arms(&self, tokens: &[u64], group: &[u64], row: usize, table: &mut [u64]) -> bool
        ensures { (result ≡ arms_there tokens.now group.now)
            × (table.new ≡ arms_marked self.now.first self.now.lets self.now.numbers.now self.now.ends.now tokens.now group.now row table.old) }
    {
        if count_trees(tokens).is_none() || !all_stand(tokens, group) {
            return false;
        }
        for place in group {
            self.mark_switch(tokens, *place as usize, row, table);
        }
        true
    }
}
