// All records of a sheet, one after another, into a table of rows and a list of roots, up to the first that is refused.
// The table and the list have room for the most that a sheet may have.
ghost use Rattle.std.specs.Prelude.{◌≤◌, length};
ghost use Rattle.load.specs.one_record.Item.{record_item};
ghost use Rattle.load.specs.recordlist.Step.{told_step};
ghost use Rattle.load.specs.recordlist.Records.{told_records};
ghost use Rattle.load.specs.recordlist.Steps.{Stepped, AllRead};

use crate::fields::record_end;
use crate::one_record::{Added, read_record};
use crate::{Refused, Table};
use refusal::Refusal;
use words::layout::ROW_WIDTH;

// How many rows and roots a sheet has, and how many records they are.
#[derive(Clone, Copy, Debug, PartialEq, Eq)]
pub struct Contents {
    pub table: Table,
    pub records: usize,
}

// One record more: how many rows and roots there are after it. The table has a row more than a list may have, so that
// there is always room to read one.
fn read_one(s: &[u8], so_far: Table, table: &mut [u64], list: &mut [u64]) -> Result<Table, Refusal>
    requires { (35875 ≤ length table.old) × (64 ≤ length list.old) × (so_far.rows ≤ 1024) × (so_far.roots ≤ 64) }
    ensures { Stepped so_far.rows so_far.roots (record_item 0 so_far.rows so_far.roots s.now) table.old list.old (told_step result) table.new list.new }
{
    let row = ROW_WIDTH * so_far.rows;
    match read_record(s, so_far, &mut table[row..])? {
        Added::Row => Ok(Table {
            rows: so_far.rows + 1,
            ..so_far
        }),
        Added::Root(k) => {
            list[so_far.roots] = k;
            Ok(Table {
                roots: so_far.roots + 1,
                ..so_far
            })
        }
    }
}

// All records: how many rows, roots and records the sheet has, or its first refusal.
pub fn read_records(sheet: &[u8], table: &mut [u64], list: &mut [u64]) -> Result<Contents, Refused>
    requires { (35875 ≤ length table.old) × (64 ≤ length list.old) × (length sheet.now ≤ 65535) }
    ensures { AllRead sheet.now (told_records result) table.new list.new }
{
    let mut at = 0;
    let mut records = 0;
    let mut so_far = Table { rows: 0, roots: 0 };
    // From record to record, not by steps of one.
    while at < sheet.len() {
        let e = record_end(sheet, at);
        // No `?`: the refusal needs the record's number, and with a closure for that the proof didn't close.
        match read_one(&sheet[at..e], so_far, table, list) {
            Ok(next) => so_far = next,
            Err(refusal) => {
                return Err(Refused {
                    refusal,
                    record: records as u64,
                });
            }
        }
        records += 1;
        at = e + 2;
    }
    Ok(Contents {
        table: so_far,
        records,
    })
}
