// How deep rows stand below one another, found without recursion, so that functions which call themselves down the rows
// can be kept from rows that are deeper than their stack. Any words may come.
ghost use Rattle.std.specs.Prelude.{◌≡◌, ◌+◌, ◌/◌, ◌≤◌};
ghost use Rattle.spec_cse.specs.AnswerRows.{stands_below, no_deeper};

use words::layout::{CONST, KINDS, LET, NAME, SYM, VALUE};

const DEEPEST: usize = 1041;

// How many of the spans after a row stand below it. A span is a row with all that stands below it.
pub(crate) fn stands_below(w: u64) -> u64
    ensures { (result ≡ stands_below w) × (result ≤ 1 + w / 64) }
{
    match w % KINDS {
        SYM | CONST | NAME => 0,
        LET | VALUE.. => 1,
        _ => w / KINDS,
    }
}

// Whether no row stands deeper than extract lays any. `below` spans are still to come below the innermost open row, and
// below the rows around it those in `left`, from the outermost on; the words themselves are below none, and no more
// than as many spans.
pub fn no_deeper(rows: &[u64]) -> bool
    ensures { result ≡ no_deeper rows.now }
{
    let mut left = [0u64; DEEPEST];
    let mut level = 0;
    let mut below = rows.len() as u64;
    for w in rows {
        // A stack: each turn closes an open row.
        while below == 0 {
            level -= 1;
            below = left[level];
        }
        if level == DEEPEST {
            return false;
        }
        left[level] = below - 1;
        below = stands_below(*w);
        level += 1;
    }
    true
}
