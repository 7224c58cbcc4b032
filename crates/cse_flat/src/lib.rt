// The public operation Extract in the flat form, `cse` of the source (01, "Turned down": Extract): node rows and roots
// in, rows of the answer out. What the scoped form does too stands in a function of its own: the rounds with the
// divisors that they leave to bind.
#![tactic(auto)]

mod ending;
mod trees;
pub mod workarea;

ghost use Rattle.std.specs.Prelude.{◌≡◌, false, ◌+◌, ◌≤◌, length, take, drop, T};
ghost use Rattle.spec_tree.specs.Outcome.{ok};
ghost use Rattle.spec_tree.specs.Tokens.{read, numbered};
ghost use Rattle.node_rows.specs.unfolded.Unfold.{unfolded};
ghost use Rattle.fmt.specs.checked.Check.{rows_in};
ghost use Rattle.laws.specs.positions.Names.{is_number, symbols_pass};
ghost use Rattle.rounds.specs.kept.Sound.{extractable};
ghost use Rattle.spec_cse.specs.Call.{extract_call, table_after};
ghost use Rattle.reciprocals.specs.final.Final.{final_rows};
ghost use Rattle.rounds.specs.Answers.{Lent};
ghost use Rattle.cse_flat.specs.ending.Answers.{trees_there, room_for, Room};
ghost use Rattle.cse_flat.specs.refined.Parts.{extract_from};
ghost use Rattle.cse_flat.specs.Answers.{extraction_answer, told, Lists};

use crate::ending::{FinishError, finish};
use crate::workarea::is_short;
use node_rows::unfolded::unfold;
use reciprocals::divisors::divisors_to_bind;
use refusal::Refusal;
use replace::NotConstant;
use rounds::{extract_all, extract_in};
use words::copying::copy;

// The most words of a list's trees, and so the most places.
const MOST: usize = 1024;

// Few words, so that most lists needn't clear the large arrays.
const FEW: usize = 256;

// The words of the work area that are used.
const WORK: usize = 65536;

// Four words of facts for each place, and chains for them.
const MOST_FACTS: usize = 4096;

const FEW_FACTS: usize = 1024;

const MOST_CHAINS: usize = 2048;

// An answer: how many rows it has, and how many bindings were extracted.
#[derive(Clone, Copy, Debug, PartialEq, Eq)]
pub struct Extracted {
    pub rows: usize,
    pub count: usize,
}

// How many words there are after the rounds, how many bindings were made, and how many divisors are to be bound.
#[derive(Clone, Copy, Debug, PartialEq, Eq)]
pub struct Listed {
    pub words: usize,
    pub made: usize,
    pub divisors: usize,
}

// The rounds on the first `len` words, and then the places of the divisors to bind: rounds keep words that print takes.
pub fn extract_and_list(
    rows: &[u64],
    tokens: &mut [u64],
    len: usize,
    scoped: bool,
    first: u64,
    text: &mut [u8],
    places: &mut [u64],
) -> Result<Listed, NotConstant>
    requires t { T (extractable (rows_in rows.now) first (take len tokens.old)) × T (symbols_pass (is_number (rows_in rows.now)) (take len tokens.old)) }
    requires len_bound { (len ≤ 1927) × (len ≤ length tokens.old) × (first ≤ 549755813888) }
    requires in_bounds { (131072 ≤ length text.old) × (len ≤ length places.old) }
    ensures { Lists (rows_in rows.now) scoped first (take len tokens.old) result tokens.new places.new }
{
    let rounds = extract_all(rows, tokens, len, scoped, first, text)?;
    let divisors = divisors_to_bind(rows, &tokens[..rounds.words], scoped, text, places);
    Ok(Listed {
        words: rounds.words,
        made: rounds.made,
        divisors,
    })
}

// The same with tables lent to the rounds.
fn list_in(
    rows: &[u64],
    tokens: &mut [u64],
    len: usize,
    facts: &mut [u64],
    classes: &mut [u64],
    next: &mut [u64],
    heads: &mut [u64],
    uses: &mut [u64],
    text: &mut [u8],
    places: &mut [u64],
) -> Result<Listed, NotConstant>
    requires t { T (extractable (rows_in rows.now) 0 (take len tokens.old)) × T (symbols_pass (is_number (rows_in rows.now)) (take len tokens.old)) }
    requires len_bound { (len ≤ 1927) × (len ≤ length tokens.old) }
    requires lent { Lent len (length facts.old) (length classes.old) (length next.old) (length heads.old) (length uses.old) }
    requires in_bounds { (131072 ≤ length text.old) × (len ≤ length places.old) }
    ensures { Lists (rows_in rows.now) false 0 (take len tokens.old) result tokens.new places.new }
{
    let left = extract_in(
        rows, tokens, len, false, 0, facts, classes, next, heads, uses, text,
    )?;
    let bound = divisors_to_bind(rows, &tokens[..left.words], false, text, places);
    Ok(Listed {
        words: left.words,
        made: left.made,
        divisors: bound,
    })
}

// The flat form on the words of the list's trees. The tables of the rounds serve the end too, when they have served,
// and the work area is free for it.
fn extract_words(
    rows: &[u64],
    roots: &[u64],
    len: usize,
    tokens: &mut [u64],
    places: &mut [u64],
    facts: &mut [u64],
    classes: &mut [u64],
    next: &mut [u64],
    heads: &mut [u64],
    uses: &mut [u64],
    work: &mut [u64],
    text: &mut [u8],
    table: &mut [u64],
) -> Result<Extracted, Refusal>
    requires roots_value { (unfolded rows.now roots.now ≡ ok (take len tokens.old)) × (len ≤ length tokens.old) × (len ≤ length places.old) }
    requires lent { Lent len (length facts.old) (length classes.old) (length next.old) (length heads.old) (length uses.old) }
    requires len_in_bounds { (len + 2 ≤ length facts.old) × (length work.old ≡ 65536) × (131072 ≤ length text.old) }
    ensures { (told result ≡ extraction_answer (extract_from false rows.now roots.now (length table.old)))
        × (table.new ≡ table_after (extract_from false rows.now roots.now (length table.old)) table.old) }
{
    let listed = list_in(
        rows, tokens, len, facts, classes, next, heads, uses, text, places,
    )?;
    let written = match finish(
        &tokens[..listed.words],
        roots.len(),
        &places[..listed.divisors],
        classes,
        next,
        facts,
        uses,
        heads,
        work,
        table,
    ) {
        Ok(n) => n,
        Err(FinishError::Refused(refusal)) => return Err(refusal),
        Err(FinishError::Broken) => unreachable!(),
        Err(FinishError::NoRoom) => unreachable!(),
    };
    Ok(Extracted {
        rows: written,
        count: listed.made,
    })
}

// The same in arrays for at most WORDS words, which stand in front of the work area.
fn extract_within<const WORDS: usize, const FACTS: usize, const CHAINS: usize>(
    rows: &[u64],
    roots: &[u64],
    len: usize,
    work: &mut [u64],
    text: &mut [u8],
    table: &mut [u64],
) -> Result<Extracted, Refusal>
    requires roots_value { (unfolded rows.now roots.now ≡ ok (take len work.old)) × (len ≤ WORDS) × (len + 2 ≤ FACTS) }
    requires lent { Lent len FACTS WORDS WORDS CHAINS WORDS × (WORDS ≤ 1024) × (FACTS ≤ 4096) × (CHAINS ≤ 2048) }
    requires work_len { (length work.old ≡ 65536) × (131072 ≤ length text.old) }
    ensures { (told result ≡ extraction_answer (extract_from false rows.now roots.now (length table.old)))
        × (table.new ≡ table_after (extract_from false rows.now roots.now (length table.old)) table.old) }
{
    let mut tokens = [0u64; WORDS];
    let mut places = [0u64; WORDS];
    let mut facts = [0u64; FACTS];
    let mut classes = [0u64; WORDS];
    let mut next = [0u64; WORDS];
    let mut heads = [0u64; CHAINS];
    let mut uses = [0u64; WORDS];
    copy(&work[..len], &mut tokens);
    extract_words(
        rows,
        roots,
        len,
        &mut tokens,
        &mut places,
        &mut facts,
        &mut classes,
        &mut next,
        &mut heads,
        &mut uses,
        work,
        text,
        table,
    )
}

// The flat form after 8.
fn extract_flat(
    rows: &[u64],
    roots: &[u64],
    work: &mut [u64],
    text: &mut [u8],
    table: &mut [u64],
) -> Result<Extracted, Refusal>
    requires { (length work.old ≡ 65536) × (131072 ≤ length text.old) }
    ensures { (told result ≡ extraction_answer (extract_from false rows.now roots.now (length table.old)))
        × (table.new ≡ table_after (extract_from false rows.now roots.now (length table.old)) table.old) }
{
    let len = unfold(rows, roots, work)?;
    if len <= FEW {
        extract_within::<FEW, FEW_FACTS, FEW>(rows, roots, len, work, text, table)
    } else {
        extract_within::<MOST, MOST_FACTS, MOST_CHAINS>(rows, roots, len, work, text, table)
    }
}

// The flat answer's rows in front of what stands in the table, and the extraction count; or 8, 9, 10 or 12, with
// nothing written to the table. What is left in the work area is free.
pub fn cse(
    rows: &[u64],
    roots: &[u64],
    work: &mut [u64],
    text: &mut [u8],
    table: &mut [u64],
) -> Result<Extracted, Refusal>
    ensures { (told result ≡ extraction_answer (extract_call false (length work.old) (length text.old) rows.now roots.now (length table.old)))
        × (table.new ≡ table_after (extract_call false (length work.old) (length text.old) rows.now roots.now (length table.old)) table.old) }
{
    if is_short(work.len(), text.len()) {
        return Err(Refusal::ShortWork);
    }
    extract_flat(rows, roots, &mut work[..WORK], text, table)
}
