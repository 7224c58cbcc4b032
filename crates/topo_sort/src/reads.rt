// Which bindings a tree reads, put into a table of bits (01, "Order"): row j, column i is yes where statement j reads
// `__xi`.
ghost use Rattle.std.specs.Prelude.{◌≡◌, length};
ghost use Rattle.topo_sort.specs.reads.Marks.{place_inside, with_need, all_inside, with_needs};

use words::bits::set;
use words::layout::{LET_NAME, NEXT_NAME};

// Makes the place of one word's name yes, if the word is that of a `__xN`. False where that place is outside the table.
fn mark_need(w: u64, row: usize, table: &mut [u64]) -> bool
    ensures { (result ≡ place_inside w row (length table.old)) × (table.new ≡ with_need w row table.old) }
{
    if w % NEXT_NAME != LET_NAME {
        return true;
    }
    set(table, row, (w / NEXT_NAME) as usize)
}

// Makes the place of each `__xN` among the words yes in one row. Whether all these places are in the table: those that
// aren't change nothing.
pub fn mark_needs(tokens: &[u64], row: usize, table: &mut [u64]) -> bool
    ensures { (result ≡ all_inside tokens.now row (length table.old))
        × (table.new ≡ with_needs tokens.now row table.old) }
{
    let mut all = true;
    for w in tokens {
        if !mark_need(*w, row, table) {
            all = false;
        }
    }
    all
}
