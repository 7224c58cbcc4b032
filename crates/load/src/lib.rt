// Load: a sheet's bytes become node rows and roots, or a refusal and its record, for any bytes. A refusal changes
// nothing that is lent.
#![tactic(auto)]

mod fields;
mod numerals;
mod one_record;
mod recordlist;
mod recordwords;

ghost use Rattle.std.specs.Prelude.{◌≡◌, ◌*◌, ◌/◌, ◌≤◌, ◌<◌, length};
ghost use Rattle.spec_sheet.specs.Call.{load_call};
ghost use Rattle.load.specs.Loads.{Loads, Finished};
ghost use Rattle.load.specs.Loaded.{told};

use crate::recordlist::read_records;
use node_rows::rows::check_domain;
use refusal::Refusal;
use words::copying::copy;
use words::layout::ROW_WIDTH;

// How many rows and roots a table has.
#[derive(Clone, Copy, Debug, PartialEq, Eq)]
pub struct Table {
    pub rows: usize,
    pub roots: usize,
}

// A refusal, and the record at which it comes: counted from 0, the count of records at the end, and 0 before the first.
#[derive(Clone, Copy, Debug, PartialEq, Eq)]
pub struct Refused {
    pub refusal: Refusal,
    pub record: u64,
}

impl From<Refusal> for Refused {
    ghost from_gives = { λ r e. (e.refusal ≡ r) × (e.record ≡ 0) };

    fn from(refusal: Refusal) -> Refused {
        Refused { refusal, record: 0 }
    }
}

// The limits on all roots together, and the copy into what is lent.
fn finish(
    table: &[u64],
    list: &[u64],
    count: usize,
    rows: &mut [u64],
    roots: &mut [u64],
) -> Result<Table, Refused>
    requires { (length table.now ≤ length rows.old) × (length list.now ≤ length roots.old) }
    ensures { Finished table.now list.now count rows.old roots.old (told result) rows.new roots.new }
{
    let Some(_) = check_domain(table, list) else {
        return Err(Refused {
            refusal: Refusal::TooLarge,
            record: count as u64,
        });
    };
    copy(table, rows);
    copy(list, roots);
    Ok(Table {
        rows: table.len() / ROW_WIDTH,
        roots: list.len(),
    })
}

// The records are read into a table and a list of our own, so that a refusal at any of them changes nothing that is
// lent.
fn load_into(
    sheet: &[u8],
    table: &mut [u64],
    list: &mut [u64],
    rows: &mut [u64],
    roots: &mut [u64],
) -> Result<Table, Refused>
    requires table_len { (length table.old ≡ 35875) × (length list.old ≡ 64) }
    requires in_bounds { (1024 ≤ length rows.old / 35) × (64 ≤ length roots.old) × (0 < length sheet.now) × (length sheet.now ≤ 65535) }
    ensures { Loads (load_call (length rows.old) (length roots.old) sheet.now) rows.old roots.old (told result) rows.new roots.new }
{
    let contents = read_records(sheet, table, list)?;
    let end = ROW_WIDTH * contents.table.rows;
    finish(
        &table[..end],
        &list[..contents.table.roots],
        contents.records,
        rows,
        roots,
    )
}

pub fn load(sheet: &[u8], rows: &mut [u64], roots: &mut [u64]) -> Result<Table, Refused>
    ensures { Loads (load_call (length rows.old) (length roots.old) sheet.now) rows.old roots.old (told result) rows.new roots.new }
{
    if rows.len() / ROW_WIDTH < 1024 || roots.len() < 64 {
        return Err(Refusal::ShortTable.into());
    }
    if sheet.is_empty() {
        return Err(Refusal::NoBytes.into());
    }
    if sheet.len() > 65535 {
        return Err(Refusal::TooLarge.into());
    }
    let mut table = [0u64; 35875];
    let mut list = [0u64; 64];
    load_into(sheet, &mut table, &mut list, rows, roots)
}
