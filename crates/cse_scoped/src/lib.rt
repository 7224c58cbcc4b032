// The public operation Extract in the scoped form, `cse_scoped` of the source (01, "Turned down": Extract): node rows
// and roots in, rows of the answer out. The scope of the roots is done first over rows of this crate's own, which finds
// every refusal before anything is written; an answer that has more, and that the table has room for, is done once
// more.
#![tactic(auto)]

mod one_scope;

ghost use Rattle.std.specs.Prelude.{◌≡◌, true, ◌≤◌, length};
ghost use Rattle.spec_cse.specs.Call.{extract_call, table_after};
ghost use Rattle.cse_flat.specs.Answers.{extraction_answer, told};
ghost use Rattle.cse_scoped.specs.one_scope.Answers.{scope_answer, scope_named, ScopeLaid, told_rows};
ghost use Rattle.cse_scoped.specs.one_scope.Frame.{most_rows};
ghost use Rattle.scope_laws.specs.measured.Roots.{roots_told, roots_rows};
ghost use Rattle.cse_scoped.specs.Kept.{Keeps};

use crate::one_scope::{ScopeRows, scope};
use cse_flat::Extracted;
use cse_flat::workarea::is_short;
use fusion::tables::put;
use node_rows::unfolded::unfold;
use refusal::Refusal;
use words::layout::RESULT;

// The words of the work area, which the open scopes share.
const AREA: usize = 65536;

// How many scopes may be open at once.
const SCOPES: usize = 9;

// How many rows are kept of the first time. Few answers have more; each is a word of the stack.
const KEPT: usize = 4096;

// With at most so many words of node rows few rows are kept, so that nothing long is cleared.
const FEW_NODES: usize = 4480;

const FEW_KEPT: usize = 512;

// The scope of the roots' trees, whose words are written into the work area anew, or 9. Its rows are laid over the
// front of the table; where they have no room, what is left there is free.
fn scope_roots(
    rows: &[u64],
    roots: &[u64],
    work: &mut [u64],
    text: &mut [u8],
    table: &mut [u64],
) -> Result<ScopeRows, Refusal>
    requires work_len { (length work.old ≡ 65536) × (131072 ≤ length text.old) }
    requires roots_bound { told_rows (roots_told rows.now roots.now) ≤ most_rows }
    ensures { (scope_named result ≡ scope_answer (roots_told rows.now roots.now) 0)
        × ScopeLaid (roots_told rows.now roots.now) 0 table.old table.new }
{
    let len = unfold(rows, roots, work)?;
    scope(rows, work, len, SCOPES, RESULT, 0, text, 0, table)
}

// That scope's rows over the table: from those that were kept, if all of them were, or else by the scope once more.
fn lay_rows(
    rows: &[u64],
    roots: &[u64],
    work: &mut [u64],
    text: &mut [u8],
    kept: &[u64],
    end: usize,
    table: &mut [u64],
)
    requires work_len { (length work.old ≡ 65536) × (131072 ≤ length text.old) }
    requires roots_bound { told_rows (roots_told rows.now roots.now) ≤ most_rows }
    requires keeps { Keeps (roots_told rows.now roots.now) end kept.now }
    ensures { ScopeLaid (roots_told rows.now roots.now) 0 table.old table.new }
{
    if end <= kept.len() {
        put(&kept[..end], 0, table);
    } else {
        let _ = scope_roots(rows, roots, work, text, table);
    }
}

// The scoped form after 8, with an array for rows to keep: 12 where the table has too few rows, before any is written.
fn write_in(
    rows: &[u64],
    roots: &[u64],
    work: &mut [u64],
    text: &mut [u8],
    table: &mut [u64],
    kept: &mut [u64],
) -> Result<Extracted, Refusal>
    requires work_len { (length work.old ≡ 65536) × (131072 ≤ length text.old) }
    requires roots_bound { told_rows (roots_told rows.now roots.now) ≤ most_rows }
    ensures { (told result ≡ extraction_answer (roots_rows rows.now roots.now (length table.old)))
        × (table.new ≡ table_after (roots_rows rows.now roots.now (length table.old)) table.old) }
{
    let scope = scope_roots(rows, roots, work, text, kept)?;
    if table.len() < scope.end {
        return Err(Refusal::TooManyRows);
    }
    lay_rows(rows, roots, work, text, kept, scope.end, table);
    Ok(Extracted {
        rows: scope.end,
        count: scope.extracted,
    })
}

// The same with an array of its own: a short one where there are few node rows.
fn write_rows(
    rows: &[u64],
    roots: &[u64],
    work: &mut [u64],
    text: &mut [u8],
    table: &mut [u64],
) -> Result<Extracted, Refusal>
    requires work_len { (length work.old ≡ 65536) × (131072 ≤ length text.old) }
    requires roots_bound { told_rows (roots_told rows.now roots.now) ≤ most_rows }
    ensures { (told result ≡ extraction_answer (roots_rows rows.now roots.now (length table.old)))
        × (table.new ≡ table_after (roots_rows rows.now roots.now (length table.old)) table.old) }
{
    if rows.len() <= FEW_NODES {
        write_in(rows, roots, work, text, table, &mut [0; FEW_KEPT])
    } else {
        write_in(rows, roots, work, text, table, &mut [0; KEPT])
    }
}

// The scoped answer's rows in front of what stands in the table, and the extraction count; or 8, 9, 10, 11, 23 or 12,
// with nothing written to the table. What is left in the work area is free.
pub fn cse_scoped(
    rows: &[u64],
    roots: &[u64],
    work: &mut [u64],
    text: &mut [u8],
    table: &mut [u64],
) -> Result<Extracted, Refusal>
    ensures { (told result ≡ extraction_answer (extract_call true (length work.old) (length text.old) rows.now roots.now (length table.old)))
        × (table.new ≡ table_after (extract_call true (length work.old) (length text.old) rows.now roots.now (length table.old)) table.old) }
{
    if is_short(work.len(), text.len()) {
        return Err(Refusal::ShortWork);
    }
    write_rows(rows, roots, &mut work[..AREA], text, table)
}
