// A sheet's flat answer in rows: load, and then extract. What is lent is long enough where a program lends it, so that
// it never sees 7, 8 or 12.
#![tactic(auto)]

ghost use Rattle.std.specs.Prelude.{◌≡◌, false, length};
ghost use Rattle.spec_sheet.specs.Call.{load_call};
ghost use Rattle.spec_cse.specs.Call.{extract_call, table_after};
ghost use Rattle.flat_sheet.specs.Flat.{told};
ghost use Rattle.flat_sheet.specs.FlatSheet.{from_extract, extracted_from, Flattened};

use cse_flat::cse;
use load::{Refused, load};
use words::layout::ROW_WIDTH;

// How many words the node rows are, and how many the answer's rows.
#[derive(Clone, Copy, Debug, PartialEq, Eq)]
pub struct Flat {
    pub rows: usize,
    pub answer: usize,
}

// Extract on node rows and roots.
fn extracted(
    rows: &[u64],
    roots: &[u64],
    work: &mut [u64],
    text: &mut [u8],
    table: &mut [u64],
) -> Result<Flat, Refused>
    ensures { (told result ≡ from_extract (length rows.now) (extract_call false (length work.old) (length text.old) rows.now roots.now (length table.old)))
        × (table.new ≡ table_after (extract_call false (length work.old) (length text.old) rows.now roots.now (length table.old)) table.old) }
{
    let extracted = cse(rows, roots, work, text, table)?;
    Ok(Flat {
        rows: rows.len(),
        answer: extracted.rows,
    })
}

// The node rows and roots of the sheet stand in front of `rows` and `roots` then, and the rows of its flat answer in
// front of `table`. Refused by load, all is as it was; refused by extract, the table is. What is left in the work area,
// `work` and `text`, is free.
pub fn flat_sheet(
    sheet: &[u8],
    rows: &mut [u64],
    roots: &mut [u64],
    work: &mut [u64],
    text: &mut [u8],
    table: &mut [u64],
) -> Result<Flat, Refused>
    ensures { Flattened (load_call (length rows.old) (length roots.old) sheet.now)
        (extracted_from (length work.old) (length text.old) (length table.old))
        rows.old roots.old table.old (told result) rows.new roots.new table.new }
{
    let loaded = load(sheet, rows, roots)?;
    let end = ROW_WIDTH * loaded.rows;
    extracted(&rows[..end], &roots[..loaded.roots], work, text, table)
}
