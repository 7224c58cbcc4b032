// A sheet's scoped answer as text: load, extract and print, one after another. What is lent may be too short for any of
// them, and is then refused by its number.
ghost use Rattle.std.specs.Prelude.{◌≡◌, true, length};
ghost use Rattle.spec_cse.specs.Call.{extract_call, table_after};
ghost use Rattle.spec_program.specs.Print.{print_call};
ghost use Rattle.csescoped.specs.sheet.Said.{told};
ghost use Rattle.csescoped.specs.sheet.ScopedSheet.{rows_text, Says, Scoped};

use cse_scoped::cse_scoped;
use load::{Refused, load};
use print::print;
use words::layout::ROW_WIDTH;

// Print: how many bytes the text is.
fn printed(rows: &[u64], answer: &[u64], out: &mut [u8]) -> Result<usize, Refused>
    ensures { Says (print_call rows.now answer.now (length out.old)) out.old (told result) out.new }
{
    Ok(print(rows, answer, out)?)
}

// Extract on node rows and roots, and print.
fn extracted(
    rows: &[u64],
    roots: &[u64],
    work: &mut [u64],
    text: &mut [u8],
    table: &mut [u64],
    out: &mut [u8],
) -> Result<usize, Refused>
    ensures { Says (rows_text (length work.old) (length text.old) (length table.old) (length out.old) rows.now roots.now) out.old (told result) out.new
        × (table.new ≡ table_after (extract_call true (length work.old) (length text.old) rows.now roots.now (length table.old)) table.old) }
{
    let extracted = cse_scoped(rows, roots, work, text, table)?;
    printed(rows, &table[..extracted.rows], out)
}

// The node rows and roots of the sheet stand in front of `rows` and `roots` then, the rows of its scoped answer in
// front of `table`, and the answer's text in front of `out`. Refused by load, all is as it was; refused by extract, the
// table and `out` are; refused by print, `out` is. What is left in the work area, `work` and `text`, is free.
pub fn scoped_sheet(
    sheet: &[u8],
    rows: &mut [u64],
    roots: &mut [u64],
    work: &mut [u64],
    text: &mut [u8],
    table: &mut [u64],
    out: &mut [u8],
) -> Result<usize, Refused>
    ensures { Scoped sheet.now (length work.old) (length text.old)
        rows.old roots.old table.old out.old (told result)
        rows.new roots.new table.new out.new }
{
    let loaded = load(sheet, rows, roots)?;
    let end = ROW_WIDTH * loaded.rows;
    extracted(&rows[..end], &roots[..loaded.roots], work, text, table, out)
}
