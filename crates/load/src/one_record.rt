// One record of a sheet, read into the words of a row: its fields are counted, and then read by its kind.
ghost use Rattle.std.specs.Prelude.{◌≡◌, [], ◌∷◌, ◌++◌, cond, true, ◌≤◌, ◌<◌, eqb, length, drop, replicate};
ghost use Rattle.spec_sheet.specs.Sheet.{fields_from, fields_ok, numbers};
ghost use Rattle.load.specs.one_record.Item.{fields_item, record_item};
ghost use Rattle.load.specs.one_record.Reading.{Follows, Writes, told};

use crate::Table;
use crate::fields::{COMMA, all_plain, copy_bytes, first_comma};
use crate::numerals::{constant_field, node_number};
use crate::recordwords::record_word;
use node_rows::fields::all_below;
use node_rows::kinds::operands_ok;
use node_rows::names::is_name;
use refusal::Refusal;
use words::layout::{CONST, ROW_WIDTH, SELECT, SELECT_OR, SYM};

const ROOT: u64 = 29;

// The most rows and the most roots of a table.
const ROWS: usize = 1024;

const ROOTS: usize = 64;

// What a record adds to a table: a row, or a root, the node of that number.
#[derive(Clone, Copy, Debug, PartialEq, Eq)]
pub enum Added {
    Row,
    Root(u64),
}

// ---- the pieces

// One field more than there are commas.
#[tactic(auto, using(crate::proofs::one_record::Pieces::fields_counted))]
fn count_fields(s: &[u8]) -> u64
    ensures { result ≡ length (fields_from [] s.now) }
{
    1 + s.iter().filter(|b| **b == COMMA).count() as u64
}

// A root, a symbol and a constant have one field, and any other node its operands.
#[tactic(auto, using(crate::proofs::one_record::Pieces::right_counts))]
fn count_ok(kind: u64, n: u64) -> bool
    ensures { result ≡ fields_ok kind n }
{
    match kind {
        SYM | CONST | ROOT => n == 1,
        SELECT_OR => operands_ok(SELECT, true, n),
        _ => operands_ok(kind, false, n),
    }
}

// The words that a row does not use are 0, so they all are at first.
fn clear(row: &mut [u64])
    requires { 35 ≤ length row.old }
    ensures { row.new ≡ replicate 35 0 ++ drop 35 row.old }
{
    row[..ROW_WIDTH].fill(0);
}

// The kind, the default and the count stand before the fields.
fn put_head(row: &mut [u64], kind: u64, default: u64, n: u64)
    requires { 35 ≤ length row.old }
    ensures { row.new ≡ kind ∷ (default ∷ (n ∷ drop 3 row.old)) }
{
    row[0] = kind;
    row[1] = default;
    row[2] = n;
}

// A Select with a default is a Select whose second word is 1.
fn put_operation(row: &mut [u64], kind: u64, n: u64)
    requires { 35 ≤ length row.old }
    ensures { row.new ≡ cond (eqb kind 28) 27 kind ∷ (cond (eqb kind 28) 1 0 ∷ (n ∷ drop 3 row.old)) }
{
    if kind == SELECT_OR {
        put_head(row, SELECT, 1, n);
    } else {
        put_head(row, kind, 0, n);
    }
}

// ---- numbers

// One field's number. It is how many were written, 1, that is handed back.
fn write_last(s: &[u8], out: &mut [u64]) -> Option<usize>
    requires { 1 ≤ length out.old }
    ensures { Writes (numbers (s.now ∷ [])) out.old result out.new }
{
    let number = node_number(s)?;
    out[0] = number;
    Some(1)
}

// The numbers of all fields, one after another. There are as many calls as fields, at most 32.
fn write_numbers(s: &[u8], out: &mut [u64]) -> Option<usize>
    requires { length (fields_from [] s.now) ≤ length out.old }
    ensures { Writes (numbers (fields_from [] s.now)) out.old result out.new }
{
    let Some(comma) = first_comma(s) else {
        return write_last(s, out);
    };
    let number = node_number(&s[..comma])?;
    out[0] = number;
    let others = write_numbers(&s[comma + 1..], &mut out[1..])?;
    Some(others + 1)
}

// ---- a record's fields by its kind: first what is wrong with them, then whether there is room for one more

fn read_symbol(s: &[u8], so_far: Table, row: &mut [u64]) -> Result<Added, Refusal>
    requires { 35 ≤ length row.old }
    ensures { Follows (fields_item 0 so_far.rows 0 0 (s.now ∷ [])) row.old (told result) row.new }
{
    clear(row);
    if !copy_bytes(s, &mut row[3..]) {
        return Err(Refusal::BadName);
    }
    let n = s.len();
    if !is_name(&row[3..n + 3]) {
        return Err(Refusal::BadName);
    }
    if so_far.rows >= ROWS {
        return Err(Refusal::TooLarge);
    }
    put_head(row, SYM, 0, n as u64);
    Ok(Added::Row)
}

fn read_constant(s: &[u8], so_far: Table, row: &mut [u64]) -> Result<Added, Refusal>
    requires { 35 ≤ length row.old }
    ensures { Follows (fields_item 0 so_far.rows 0 1 (s.now ∷ [])) row.old (told result) row.new }
{
    let Some(constant) = constant_field(s) else {
        return Err(Refusal::BadConstant);
    };
    if so_far.rows >= ROWS {
        return Err(Refusal::TooLarge);
    }
    clear(row);
    put_head(row, CONST, 0, 2);
    row[3] = constant.sign;
    row[4] = constant.size;
    Ok(Added::Row)
}

// An operation's operands, or the node of a root.
fn read_numbers(kind: u64, s: &[u8], so_far: Table, row: &mut [u64]) -> Result<Added, Refusal>
    requires { (35 ≤ length row.old) × ((so_far.rows ≤ 1000000) × ((1 < kind) × (length (fields_from [] s.now) ≤ 32))) }
    ensures { Follows (fields_item 0 so_far.rows so_far.roots kind (fields_from [] s.now)) row.old (told result) row.new }
{
    clear(row);
    let Some(n) = write_numbers(s, &mut row[3..]) else {
        return Err(Refusal::Malformed);
    };
    if !all_below(&row[3..n + 3], so_far.rows as u64) {
        return Err(Refusal::NotEarlier);
    }
    if kind == ROOT {
        if so_far.roots >= ROOTS {
            return Err(Refusal::TooLarge);
        }
        return Ok(Added::Root(row[3]));
    }
    if so_far.rows >= ROWS {
        return Err(Refusal::TooLarge);
    }
    put_operation(row, kind, n as u64);
    Ok(Added::Row)
}

fn read_fields(kind: u64, s: &[u8], so_far: Table, row: &mut [u64]) -> Result<Added, Refusal>
    requires { (35 ≤ length row.old) × ((so_far.rows ≤ 1000000) × (fields_ok kind (length (fields_from [] s.now)) ≡ true)) }
    ensures { Follows (fields_item 0 so_far.rows so_far.roots kind (fields_from [] s.now)) row.old (told result) row.new }
{
    match kind {
        SYM => read_symbol(s, so_far, row),
        CONST => read_constant(s, so_far, row),
        _ => read_numbers(kind, s, so_far, row),
    }
}

// ---- a record

// What a record gives after the rows and roots so far: a row, whose words are written, the node of a root, or a
// refusal.
pub fn read_record(record: &[u8], so_far: Table, row: &mut [u64]) -> Result<Added, Refusal>
    requires { (35 ≤ length row.old) × (so_far.rows ≤ 1000000) }
    ensures { Follows (record_item 0 so_far.rows so_far.roots «record».now) row.old (told result) row.new }
{
    if !all_plain(record) {
        return Err(Refusal::Malformed);
    }
    let Some(comma) = first_comma(record) else {
        return Err(Refusal::Malformed);
    };
    let Some(kind) = record_word(&record[..comma]) else {
        return Err(Refusal::Malformed);
    };
    let fields = &record[comma + 1..];
    if !count_ok(kind, count_fields(fields)) {
        return Err(Refusal::Malformed);
    }
    read_fields(kind, fields, so_far, row)
}
