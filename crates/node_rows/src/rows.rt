// Node rows lent as words: whether they are within every limit of 01's first section, and the test for refusal 9,
// whether rows and roots are ones that load lays out for some sheet.
ghost use Rattle.std.specs.Prelude.{◌≡◌, suc, ◌+◌, ◌*◌, ◌/◌, ◌≤◌, ◌<◌, max, T, length, get_or};
ghost use Rattle.spec_tree.specs.Facts.{total, greatest};
ghost use Rattle.node_rows.specs.fields.Below.{below};
ghost use Rattle.node_rows.specs.rows.Check.{checked, check_domain, row_test, Numbered};
ghost use Rattle.node_rows.specs.rows.Measure.{pick, capped_size, capped_level, level_by, row_operands, Filled};
ghost use Rattle.node_rows.specs.rows.Nine.{check_rows};

use crate::fields::{all_below, fields_ok, zero_from};
use crate::records::fits_a_sheet;
use words::layout::{BRANCH, NEG, ROW_WIDTH};

// Arms nest at most so deep, and the roots have at most so many occurrences.
const DEEPEST: u64 = 8;

const OCCURRENCES: u64 = 1024;

// A row after i others: its kind, default flag and fields, and 0 in every word that is left.
#[tactic(auto, unfolding(crate::specs::rows::Check::row_test))]
fn row_ok(row: &[u64], i: u64) -> bool
    requires { length row.now ≡ 35 }
    ensures { result ≡ row_test i row.now }
{
    if row[2] > 32 {
        return false;
    }
    let end = 3 + row[2] as usize;
    zero_from(row, end) && fields_ok(row[0], row[1], &row[3..end], i)
}

// ---- sizes and levels

// A sum that stops at 1,025: a shared node counts once for each path, so that 1,024 rows can have 2 to the 900th
// occurrences.
fn capped_sum(a: u64, b: u64) -> u64
    requires { a ≤ 1025 }
    ensures { result ≡ capped_size (a + b) }
{
    a + b.min(1025 - a)
}

// A level that stops at 9, one more than arms may nest.
fn capped(level: u64) -> u64
    ensures { result ≡ capped_level level }
{
    level.min(9)
}

// The deepest of some rows' levels.
fn deepest(levels: &[u64], numbers: &[u64]) -> u64
    requires { T (below (length levels.now) numbers.now) }
    ensures { result ≡ greatest (pick levels.now numbers.now) }
{
    let mut level = 0u64;
    for n in numbers {
        level = level.max(levels[*n as usize]);
    }
    level
}

// Every operand of a Branch or a Select after the first is an arm, one level further in.
fn level_of(kind: u64, levels: &[u64], operands: &[u64]) -> u64
    requires { T (below (length levels.now) operands.now) }
    ensures { result ≡ capped_level (level_by kind (pick levels.now operands.now)) }
{
    if kind < BRANCH || operands.len() < 2 {
        return capped(deepest(levels, operands));
    }
    let arms = capped(deepest(levels, &operands[1..]));
    capped(levels[operands[0] as usize].max(arms + 1))
}

#[derive(Clone, Copy, Debug, PartialEq, Eq)]
struct Measure {
    size: u64,
    level: u64,
}

// The occurrences under some rows together, and the deepest of their levels, in one pass.
fn measure_all(sizes: &[u64], levels: &[u64], numbers: &[u64]) -> Measure
    requires { T (below (length sizes.now) numbers.now) × T (below (length levels.now) numbers.now) }
    ensures { (result.size ≡ capped_size (total (pick sizes.now numbers.now)))
        × (result.level ≡ greatest (pick levels.now numbers.now)) }
{
    let mut size = 0;
    let mut level = 0u64;
    for n in numbers {
        let at = *n as usize;
        size = capped_sum(size, sizes[at]);
        level = level.max(levels[at]);
    }
    Measure { size, level }
}

// The size and the level of a row's tree, from those of the rows before it.
fn measure_row(row: &[u64], sizes: &[u64], levels: &[u64]) -> Measure
    requires row_len { (length row.now ≡ 35) × (get_or row.now 2 0 ≤ 32) }
    requires t { T (below (length sizes.now) (row_operands row.now)) × T (below (length levels.now) (row_operands row.now)) }
    ensures { (result.size ≡ capped_size (suc (total (pick sizes.now (row_operands row.now)))))
        × (result.level ≡ capped_level (level_by (get_or row.now 0 0) (pick levels.now (row_operands row.now)))) }
{
    if row[0] < NEG {
        return Measure { size: 1, level: 0 };
    }
    let end = 3 + row[2] as usize;
    let operands = &row[3..end];
    let below = measure_all(sizes, levels, operands);
    let size = capped_sum(1, below.size);
    if row[0] < BRANCH {
        return Measure {
            size,
            level: capped(below.level),
        };
    }
    Measure {
        size,
        level: level_of(row[0], levels, operands),
    }
}

// ---- the table

// Each row is tested, and the size and the level of its tree are kept, one row after another. They stand in two slices
// and not in one of pairs, since `deepest` goes over levels alone.
fn fill(rows: &[u64], n: usize, sizes: &mut [u64], levels: &mut [u64]) -> bool
    requires { (length rows.now ≡ n * 35) × (n ≤ length sizes.old) × (n ≤ length levels.old) }
    ensures { Filled rows.now n sizes.new levels.new result }
{
    for i in 0..n {
        let at = i * ROW_WIDTH;
        let row = &rows[at..at + ROW_WIDTH];
        if !row_ok(row, i as u64) {
            return false;
        }
        let m = measure_row(row, sizes, levels);
        sizes[i] = m.size;
        levels[i] = m.level;
    }
    true
}

// Rows and roots of the right numbers, with N places for the sizes and the levels of rows. The places are cleared,
// which is much of the time that few rows take.
fn check_within<const N: usize>(rows: &[u64], roots: &[u64]) -> Option<usize>
    requires numbered { Numbered rows.now roots.now }
    requires rows_in_bounds { length rows.now / 35 ≤ N }
    requires few_places { N ≤ 1024 }
    ensures { checked result ≡ check_domain rows.now roots.now }
{
    let n = rows.len() / ROW_WIDTH;
    let mut sizes = [0u64; N];
    let mut levels = [0u64; N];
    if !fill(rows, n, &mut sizes, &mut levels) || !all_below(roots, n as u64) {
        return None;
    }
    let whole = measure_all(&sizes, &levels, roots);
    if whole.level > DEEPEST || whole.size > OCCURRENCES {
        return None;
    }
    Some(whole.size as usize)
}

// Whether the words are the rows of a list within every limit of 01's first section: the occurrences under all roots,
// or else None. The length of their sheet is tested elsewhere.
pub fn check_domain(rows: &[u64], roots: &[u64]) -> Option<usize>
    ensures { checked result ≡ check_domain rows.now roots.now }
{
    let n = rows.len() / ROW_WIDTH;
    if rows.len() != n * ROW_WIDTH || n > 1024 || roots.len() > 64 {
        return None;
    }
    if n <= 128 {
        check_within::<128>(rows, roots)
    } else {
        check_within::<1024>(rows, roots)
    }
}

// The occurrences under all roots, or refusal 9.
pub(crate) fn check_rows(rows: &[u64], roots: &[u64]) -> Option<usize>
    ensures { checked result ≡ check_rows rows.now roots.now }
{
    let occurrences = check_domain(rows, roots)?;
    fits_a_sheet(rows, roots).then_some(occurrences)
}
