// Node rows unfolded into the words of their roots' trees: one word for each occurrence, a node before its operands,
// left to right. `unfold` is for callers. The functions before it ask that the rows are laid out as load lays them out,
// which `check_rows` decides before they are called.
ghost use Rattle.std.specs.Prelude.{◌≡◌, ◌+◌, ◌*◌, ◌/◌, ◌≤◌, ◌<◌, ◌^◌, T, ltb, get_or};
ghost use Rattle.std.proofs.Math.ListN.{length};
ghost use Rattle.spec_tree.specs.Bytes.{eq_bytes, every};
ghost use Rattle.spec_tree.specs.Rows.{trees};
ghost use Rattle.spec_tree.specs.Layout.{row_fields, signed, laid_out, table_of};
ghost use Rattle.spec_tree.specs.Tokens.{number_in, constant_code, all_tokens};
ghost use Rattle.node_rows.specs.unfolded.Write.{Wrote};
ghost use Rattle.node_rows.specs.unfolded.Chain.{bucket, bucket_at, FirstNamed, Link, Nexts, Chains, NodeWords};
ghost use Rattle.node_rows.specs.unfolded.Unfold.{row_count, rows_in, row_at, row_number, operand_rows, run, runs, RowsLaid, unfolded, told, Answers};

use crate::rows::check_rows;
use refusal::Refusal;
use words::layout::{CONST, KINDS, NEG, NEXT_NAME, ROW_WIDTH, SYM};

// The number of row r's kind. A Select with a default has the next number after a Select.
fn kind_of(rows: &[u64], r: usize) -> u64
    requires rows_laid { RowsLaid rows.now }
    requires r_bound { r < row_count rows.now }
    ensures { (result ≡ row_number (row_at rows.now r)) × (result ≤ 28) }
{
    let at = r * ROW_WIDTH;
    rows[at] + rows[at + 1]
}

// The fields of row r: a symbol's name, a constant's sign and size, or the numbers of an operation's operands.
fn fields_of(rows: &[u64], r: usize) -> &[u64]
    requires rows_laid { RowsLaid rows.now }
    requires r_bound { r < row_count rows.now }
    ensures { result.now ≡ row_fields (row_at rows.now r) }
{
    let at = r * ROW_WIDTH;
    let count = rows[at + 2] as usize;
    &rows[at + 3..at + 3 + count]
}

// The bucket of a name: sums of its bytes, in which their order counts.
fn bucket_of(name: &[u64]) -> usize
    requires { length name.now ≤ 32 }
    ensures { (result ≡ bucket name.now) × (result < 256) }
{
    let mut sum = 0u64;
    let mut sums = 0u64;
    for b in name {
        sum += *b % 256;
        sums += sum;
    }
    ((31 * sums + sum) % 256) as usize
}

// The first row that has row r's name, if it is along a chain from a link on, or else r. A link is 0, or a row and 1.
fn first_named(rows: &[u64], r: usize, link: u64, next: &[u64]) -> usize
    requires rows_laid { RowsLaid rows.now }
    requires r_bound { (r < row_count rows.now) × (row_number (row_at rows.now r) ≡ 0) × (r ≤ length next.now) }
    requires link { Link rows.now (bucket_at rows.now r) r link × Nexts rows.now r next.now }
    ensures { FirstNamed rows.now r result }
{
    let name = fields_of(rows, r);
    let mut q = link as usize;
    // A walk along links, not a step along a range.
    while q > 0 {
        let i = q - 1;
        if fields_of(rows, i) == name {
            return i;
        }
        q = next[i] as usize;
    }
    r
}

// A symbol's number, the first row of its name. The first rows of names are kept in chains, one for each bucket, and
// the last of them leads.
fn symbol_number(rows: &[u64], r: usize, heads: &mut [u64], next: &mut [u64]) -> usize
    requires rows_laid { RowsLaid rows.now }
    requires r_bound { (r < row_count rows.now) × (row_number (row_at rows.now r) ≡ 0) }
    requires chains { Chains rows.now r heads.old next.old }
    ensures value { (result ≡ number_in (rows_in rows.now) (row_fields (row_at rows.now r))) × (result ≤ r) }
    ensures chains_2 { Chains rows.now (r + 1) heads.new next.new }
{
    let b = bucket_of(fields_of(rows, r));
    let e = first_named(rows, r, heads[b], next);
    if e < r {
        return e;
    }
    next[r] = heads[b];
    heads[b] = r as u64 + 1;
    r
}

// Constants in the order 0, -1, 1, -2, 2, ..
fn constant_code(sign: u64, size: u64) -> u64
    requires { (size < 10 ^ 15) × (0 < sign → 0 < size) }
    ensures { (result ≡ constant_code (signed sign size)) × (result < 2 * 10 ^ 15) }
{
    if sign == 0 { 2 * size } else { 2 * size - 1 }
}

// The word of row r's node: its kind, and a symbol's or a constant's code or the number of operands.
fn node_word(rows: &[u64], r: usize, heads: &mut [u64], next: &mut [u64]) -> u64
    requires rows_laid { RowsLaid rows.now }
    requires r_bound { r < row_count rows.now }
    requires chains { Chains rows.now r heads.old next.old }
    ensures value { result ≡ get_or (run rows.now r) 0 0 }
    ensures chains_2 { Chains rows.now (r + 1) heads.new next.new }
{
    let at = r * ROW_WIDTH;
    match kind_of(rows, r) {
        SYM => NEXT_NAME * (symbol_number(rows, r, heads, next) as u64),
        CONST => CONST + KINDS * constant_code(rows[at + 3], rows[at + 4]),
        kind => kind + KINDS * rows[at + 2],
    }
}

// The words of all rows' nodes. They stand apart from the links, which nothing needs once they are there.
fn node_words(rows: &[u64], words: &mut [u64], next: &mut [u64])
    requires rows_laid { RowsLaid rows.now }
    requires rows_in_bounds { (row_count rows.now ≤ length words.old) × (row_count rows.now ≤ length next.old) }
    ensures { NodeWords rows.now (row_count rows.now) words.new }
{
    let n = rows.len() / ROW_WIDTH;
    let mut heads = [0u64; 256];
    for r in 0..n {
        words[r] = node_word(rows, r, &mut heads, next);
    }
}

// Row r's tree, written from `at` on; gives the end. Its operands are earlier rows, so this ends.
#[cycle(unfold_each_unfold_row)]
fn unfold_row(rows: &[u64], words: &[u64], r: usize, out: &mut [u64], at: usize) -> usize
    requires rows_laid { RowsLaid rows.now × NodeWords rows.now (row_count rows.now) words.now }
    requires r_bound { r < row_count rows.now }
    requires r_in_bounds { at + length (run rows.now r) ≤ length out.old }
    ensures { Wrote out.old at (run rows.now r) result out.new }
{
    out[at] = words[r];
    // A leaf's fields are no operands.
    if kind_of(rows, r) < NEG {
        return at + 1;
    }
    unfold_each(rows, words, fields_of(rows, r), out, at + 1)
}

// The trees of several rows, one after another.
#[cycle(unfold_each_unfold_row)]
fn unfold_each(rows: &[u64], words: &[u64], list: &[u64], out: &mut [u64], at: usize) -> usize
    requires rows_laid { RowsLaid rows.now × NodeWords rows.now (row_count rows.now) words.now }
    requires t { T (every (λ n. ltb n (row_count rows.now)) list.now) }
    requires list_in_bounds { at + length (runs rows.now list.now) ≤ length out.old }
    ensures { Wrote out.old at (runs rows.now list.now) result out.new }
{
    let mut to = at;
    for r in list {
        to = unfold_row(rows, words, *r as usize, out, to);
    }
    to
}

// The roots' trees, written from the start on; gives how many words they are. Each row has a word and a link, in N
// places; as in the test, few rows have few.
fn unfold_within<const N: usize>(rows: &[u64], roots: &[u64], out: &mut [u64]) -> usize
    requires t { T (laid_out rows.now roots.now) }
    requires in_bounds { 1024 ≤ length out.old }
    requires rows_in_bounds { length rows.now / 35 ≤ N }
    requires few_places { N ≤ 1024 }
    ensures { Wrote out.old 0
        (all_tokens (number_in (table_of rows.now roots.now).rows) (trees (table_of rows.now roots.now)))
        result out.new }
{
    let mut words = [0u64; N];
    let mut next = [0u64; N];
    node_words(rows, &mut words, &mut next);
    unfold_each(rows, &words, roots, out, 0)
}

fn unfold_roots(rows: &[u64], roots: &[u64], out: &mut [u64]) -> usize
    requires t { T (laid_out rows.now roots.now) }
    requires in_bounds { 1024 ≤ length out.old }
    ensures { Wrote out.old 0
        (all_tokens (number_in (table_of rows.now roots.now).rows) (trees (table_of rows.now roots.now)))
        result out.new }
{
    if rows.len() / ROW_WIDTH <= 128 {
        unfold_within::<128>(rows, roots, out)
    } else {
        unfold_within::<1024>(rows, roots, out)
    }
}

// The words of the roots' trees, first in `out`, which every list fits; or 9, where load could lay out no such rows.
// What stands in `out` past the words stays, and all of it where the call is refused.
pub fn unfold(rows: &[u64], roots: &[u64], out: &mut [u64]) -> Result<usize, Refusal>
    requires { 1024 ≤ length out.old }
    ensures { Answers (unfolded rows.now roots.now) out.old (told result) out.new }
{
    check_rows(rows, roots).ok_or(Refusal::BadRows)?;
    Ok(unfold_roots(rows, roots, out))
}
