// How many bytes the sheet has that gives a table. Load takes at most 65,535, so rows whose sheet is longer are none
// that it lays out.
ghost use Rattle.std.specs.Prelude.{◌≡◌, ◌+◌, ◌*◌, ◌/◌, ◌≤◌, ◌<◌, T, length};
ghost use Rattle.spec_tree.specs.Bytes.{decimal, integer};
ghost use Rattle.spec_tree.specs.Kinds.{kind_at};
ghost use Rattle.spec_tree.specs.Records.{numbers_text, row_record, row_records, root_records, terminated};
ghost use Rattle.spec_tree.specs.Layout.{signed, row_of, rows_of, table_of, sheet_fits};
ghost use Rattle.node_rows.specs.records.Shape.{Shape, Shapes, field_count};
ghost use Rattle.node_rows.specs.rows.Check.{laid_in_domain};

use words::layout::{CONST, ROW_WIDTH, SYM};

fn digit_count(n: u64) -> usize
    ensures { (result ≡ length (decimal n)) × (result ≤ 20) }
{
    let mut m = n;
    let mut count = 1;
    // A digit less each turn, not a step along a range.
    while m >= 10 {
        m /= 10;
        count += 1;
    }
    count
}

// A constant's text, from its sign and its size.
#[tactic(auto, using(crate::proofs::records::RecordBytes::constant_texts))]
fn constant_bytes(sign: u64, size: u64) -> usize
    ensures { (result ≡ length (integer (signed sign size))) × (result ≤ 21) }
{
    match (sign, size) {
        (0, _) => digit_count(size),
        (_, 0) => 1,
        _ => 1 + digit_count(size),
    }
}

// The lengths of the kinds' record words.
const WORDS: [usize; 29] = [
    3, 5, 3, 3, 3, 3, 3, 3, 3, 3, 3, 4, 4, 4, 5, 4, 4, 4, 3, 2, 4, 5, 4, 3, 9, 5, 6, 6, 8,
];

fn word_bytes(kind: usize) -> usize
    requires { kind < 29 }
    ensures { (result ≡ length (kind_at kind).word) × (result ≤ 9) }
{
    WORDS[kind]
}

// Numbers, a comma before each.
fn numbers_bytes(s: &[u64]) -> usize
    requires { length s.now ≤ 32 }
    ensures { (result ≡ length (numbers_text s.now)) × (result ≤ 21 * 32) }
{
    let mut sum = 0;
    for n in s {
        sum += 1 + digit_count(*n);
    }
    sum
}

// A row's record.
fn row_bytes(row: &[u64]) -> usize
    requires { Shape row.now }
    ensures { (result ≡ length (row_record (row_of row.now))) × (result ≤ 700) }
{
    let count = row[2] as usize;
    match row[0] + row[1] {
        SYM => 4 + count,
        CONST => 6 + constant_bytes(row[3], row[4]),
        kind => word_bytes(kind as usize) + numbers_bytes(&row[3..3 + count]),
    }
}

// The records of all rows, each with a CRLF.
fn rows_bytes(rows: &[u64]) -> usize
    requires { Shapes rows.now }
    ensures { (result ≡ terminated (row_records (rows_of (length rows.now / 35) rows.now))) × (result ≤ 702 * 1024) }
{
    let mut sum = 0;
    for i in 0..rows.len() / ROW_WIDTH {
        let at = ROW_WIDTH * i;
        sum += row_bytes(&rows[at..at + ROW_WIDTH]) + 2;
    }
    sum
}

// The records of the roots, each with a CRLF.
fn roots_bytes(roots: &[u64]) -> usize
    requires { length roots.now ≤ 64 }
    ensures { (result ≡ terminated (root_records roots.now)) × (result ≤ 27 * 64) }
{
    let mut sum = 0;
    for n in roots {
        sum += 7 + digit_count(*n);
    }
    sum
}

// How many fields all rows have together.
fn field_count(rows: &[u64]) -> usize
    requires { Shapes rows.now }
    ensures { (result ≡ field_count (length rows.now / 35) rows.now) × (result ≤ 32 * 1024) }
{
    let mut sum = 0;
    for i in 0..rows.len() / ROW_WIDTH {
        sum += rows[ROW_WIDTH * i + 2] as usize;
    }
    sum
}

// Whether the table's sheet has at least one record, and at most 65,535 bytes without the last CRLF, which is all that
// load asks of its length. With its CRLF a row's record has at most 14 bytes and 5 for each field, since the numbers of
// nodes have four digits, and a root's has 11; so the bytes of most tables need not be counted.
pub(crate) fn fits_a_sheet(rows: &[u64], roots: &[u64]) -> bool
    requires { T (laid_in_domain rows.now roots.now) }
    ensures { result ≡ sheet_fits (table_of rows.now roots.now) }
{
    let n = rows.len() / ROW_WIDTH;
    n > 0
        && (14 * n + 5 * field_count(rows) <= 64833
            || rows_bytes(rows) + roots_bytes(roots) <= 65537)
}
