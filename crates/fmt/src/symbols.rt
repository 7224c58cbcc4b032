// The text of a symbol by its code: a name of the list from its node row, or one that an answer makes. A writer that never fails, as those of `emit`.
ghost use Rattle.std.specs.Prelude.{◌≡◌};
ghost use Rattle.fmt.specs.emit.Writing.{Writes, low_bytes};
ghost use Rattle.fmt.specs.symbols.Symbols.{row_name, symbol_text};

use crate::emit::{place, put, put_bytes, put_decimal};
use words::layout::{CLASSES, LET_CLASS, ROW_WIDTH, SYM};

const FIELDS: u64 = 32;

// The name of the list's symbol in row n; empty where there is no such row, or it has none. A row that says that it has more fields than a row holds has those
// that are there.
pub(crate) fn row_name(rows: &[u64], n: u64) -> &[u64]
    ensures { result.now ≡ row_name rows.now n }
{
    if n >= (rows.len() / ROW_WIDTH) as u64 {
        return &[];
    }
    let at = n as usize * ROW_WIDTH;
    if rows[at] != SYM || rows[at + 1] != 0 {
        return &[];
    }
    let first = at + 3;
    let count = rows[at + 2].min(FIELDS) as usize;
    &rows[first..first + count]
}

// A text of one word a byte.
fn put_words(out: &mut [u8], dry: bool, to: usize, s: &[u64]) -> usize
    ensures { Writes dry out.old to (low_bytes s.now) out.new result }
{
    let mut at = place(out, to);
    for w in s {
        at = put(out, dry, at, (*w % 256) as u8);
    }
    at
}

// A symbol by its code: one of the list, `__xN` or `__mN`.
pub fn put_name(rows: &[u64], out: &mut [u8], dry: bool, to: usize, code: u64) -> usize
    ensures { Writes dry out.old to (low_bytes (symbol_text rows.now code)) out.new result }
{
    let number = code / CLASSES;
    match code % CLASSES {
        0 => put_words(out, dry, to, row_name(rows, number)),
        LET_CLASS => {
            let at = put_bytes(out, dry, to, b"__x");
            put_decimal(out, dry, at, number)
        }
        _ => {
            let at = put_bytes(out, dry, to, b"__m");
            put_decimal(out, dry, at, number)
        }
    }
}
