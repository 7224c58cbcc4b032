// The rounds of extraction on words of trees (01, "Extraction"), the first part of `cse_scope` of the source. In a
// round the tree at the best place gets the next name, which stands for it in all the trees, and is the last of them
// itself; rounds go on until no candidate is left. Local arrays hold what is worked out beside the words: the facts and
// marks of the places, the places of factors, and the words written.
#![tactic(auto)]

pub mod choice;
mod measure;
mod outside;
pub mod uses;
pub mod value_numbers;

ghost use Rattle.std.specs.Prelude.{◌≡◌, ◌*◌, ◌≤◌, length, take, T};
ghost use Rattle.fmt.specs.checked.Check.{rows_in};
ghost use Rattle.rounds.specs.kept.Sound.{extractable};
ghost use Rattle.rounds.specs.Answers.{Chosen, Lent, Extracts, Turns, TurnedSo};
ghost use Rattle.rounds.specs.Rounds.{rounds_answer, LeavesWords};

use crate::choice::best_place;
use replace::{NotConstant, replace_known};
use words::copying::{copy, put};
use words::layout::{CLASSES, KINDS, LET_CLASS};
use words::tokens::tree_end;

// The most words, four words of facts for each, and chains for them.
const MOST_WORDS: usize = 1927;

const MOST_FACTS: usize = 7708;

const MOST_CHAINS: usize = 2048;

// Few words and their facts, and some more, so that most lists needn't clear the large arrays.
const FEW_WORDS: usize = 256;

const FEW_FACTS: usize = 1024;

const SOME_WORDS: usize = 1024;

const SOME_FACTS: usize = 4096;

// How many words there are now, and how many bindings were made.
#[derive(Clone, Copy, Debug, PartialEq, Eq)]
pub struct Rounds {
    pub words: usize,
    pub made: usize,
}

// The words with the tree at a place replaced by a name, and that tree after them.
fn extract(
    rows: &[u64],
    tokens: &[u64],
    scoped: bool,
    at: usize,
    name: u64,
    places: &mut [u64],
    out: &mut [u64],
) -> Result<usize, NotConstant>
    requires chosen { Chosen (rows_in rows.now) tokens.now scoped at name }
    requires tokens_len_bound { (length tokens.now ≤ 1927) × (name ≤ 1099511627776) }
    requires tokens_in_bounds { (2 * length tokens.now ≤ length places.old) × (length tokens.now ≤ length out.old) }
    ensures { Extracts tokens.now at name out.old result out.new }
{
    let end = tree_end(tokens, at);
    let word = KINDS * (LET_CLASS + CLASSES * name);
    let n = replace_known(tokens, &tokens[at..end], word, places, out)?;
    put(&tokens[at..end], n, out);
    Ok(n + (end - at))
}

// The same in the place of the words.
fn extract_here(
    rows: &[u64],
    tokens: &mut [u64],
    len: usize,
    scoped: bool,
    at: usize,
    name: u64,
    places: &mut [u64],
    out: &mut [u64],
) -> Result<usize, NotConstant>
    requires chosen { Chosen (rows_in rows.now) (take len tokens.old) scoped at name }
    requires len_in_bounds { (len ≤ length tokens.old) × (len ≤ 1927) × (name ≤ 1099511627776) }
    requires len_in_bounds_2 { (2 * len ≤ length places.old) × (len ≤ length out.old) }
    ensures { Turns tokens.old len at name result tokens.new }
{
    let n = extract(rows, &tokens[..len], scoped, at, name, places, out)?;
    copy(&out[..n], tokens);
    Ok(n)
}

// One round on the first `len` words, whose trees are results and bindings by number; `name` is the next number. How
// many words there are now, or None where no candidate is left; unless it is Some, no word changes. The tables are
// worked in; when the best place is found, those of facts and uses serve for the places of factors and the words
// written. They are five slices side by side, and no struct, since `extract_in`, `best_place` and `class_tables` promise
// what they do of slices that a caller lends so (cse_flat's `extract_words` lends them on to the end).
fn one_round(
    rows: &[u64],
    tokens: &mut [u64],
    len: usize,
    scoped: bool,
    name: u64,
    facts: &mut [u64],
    classes: &mut [u64],
    next: &mut [u64],
    heads: &mut [u64],
    uses: &mut [u64],
    text: &mut [u8],
) -> Result<Option<usize>, NotConstant>
    requires t { T (extractable (rows_in rows.now) name (take len tokens.old)) × (len ≤ length tokens.old) × (len ≤ 1927) }
    requires name_bound { (name ≤ 1099511627776) × (131072 ≤ length text.old) }
    requires lent { Lent len (length facts.old) (length classes.old) (length next.old) (length heads.old) (length uses.old) }
    ensures { TurnedSo (rows_in rows.now) tokens.old len scoped name result tokens.new }
{
    let found = best_place(
        rows,
        &tokens[..len],
        scoped,
        facts,
        classes,
        next,
        heads,
        uses,
        text,
    );
    let Some(at) = found else {
        return Ok(None);
    };
    let now = extract_here(rows, tokens, len, scoped, at, name, facts, uses)?;
    Ok(Some(now))
}

// Rounds on the first `len` words, all of whose trees are results, until no candidate is left; `first` is the first
// number. What stands past them never changes. The tables are lent; what is left in them is free.
pub fn extract_in(
    rows: &[u64],
    tokens: &mut [u64],
    len: usize,
    scoped: bool,
    first: u64,
    facts: &mut [u64],
    classes: &mut [u64],
    next: &mut [u64],
    heads: &mut [u64],
    uses: &mut [u64],
    text: &mut [u8],
) -> Result<Rounds, NotConstant>
    requires t { T (extractable (rows_in rows.now) first (take len tokens.old)) × (len ≤ length tokens.old) × (len ≤ 1927) }
    requires first_bound { (first ≤ 549755813888) × (131072 ≤ length text.old) }
    requires lent { Lent len (length facts.old) (length classes.old) (length next.old) (length heads.old) (length uses.old) }
    ensures { (result ≡ rounds_answer (rows_in rows.now) tokens.old len scoped first)
        × LeavesWords (rows_in rows.now) tokens.old len scoped first tokens.new }
{
    let mut words = len;
    let mut made: usize = 0;
    while let Some(now) = one_round(
        rows,
        tokens,
        words,
        scoped,
        first + made as u64,
        facts,
        classes,
        next,
        heads,
        uses,
        text,
    )? {
        words = now;
        made += 1;
    }
    Ok(Rounds { words, made })
}

// The same with arrays of its own, for so many words: FACTS is four times as many.
fn rounds_within<const WORDS: usize, const FACTS: usize, const CHAINS: usize>(
    rows: &[u64],
    tokens: &mut [u64],
    len: usize,
    scoped: bool,
    first: u64,
    text: &mut [u8],
) -> Result<Rounds, NotConstant>
    requires t { T (extractable (rows_in rows.now) first (take len tokens.old)) × (len ≤ length tokens.old) × (len ≤ 1927) }
    requires first_bound { (first ≤ 549755813888) × (131072 ≤ length text.old) }
    requires lent { Lent len FACTS WORDS WORDS CHAINS WORDS × (FACTS ≤ 7708) × (WORDS ≤ 1927) × (CHAINS ≤ 2048) }
    ensures { (result ≡ rounds_answer (rows_in rows.now) tokens.old len scoped first)
        × LeavesWords (rows_in rows.now) tokens.old len scoped first tokens.new }
{
    let mut facts = [0u64; FACTS];
    let mut classes = [0u64; WORDS];
    let mut next = [0u64; WORDS];
    let mut heads = [0u64; CHAINS];
    let mut uses = [0u64; WORDS];
    extract_in(
        rows,
        tokens,
        len,
        scoped,
        first,
        &mut facts,
        &mut classes,
        &mut next,
        &mut heads,
        &mut uses,
        text,
    )
}

// The same with arrays of its own: few words have small ones, and those of the flat form not the largest, since a large
// array takes long to clear.
pub fn extract_all(
    rows: &[u64],
    tokens: &mut [u64],
    len: usize,
    scoped: bool,
    first: u64,
    text: &mut [u8],
) -> Result<Rounds, NotConstant>
    requires t { T (extractable (rows_in rows.now) first (take len tokens.old)) × (len ≤ length tokens.old) × (len ≤ 1927) }
    requires first_bound { (first ≤ 549755813888) × (131072 ≤ length text.old) }
    ensures { (result ≡ rounds_answer (rows_in rows.now) tokens.old len scoped first)
        × LeavesWords (rows_in rows.now) tokens.old len scoped first tokens.new }
{
    if len <= FEW_WORDS {
        rounds_within::<FEW_WORDS, FEW_FACTS, FEW_WORDS>(rows, tokens, len, scoped, first, text)
    } else if len <= SOME_WORDS {
        rounds_within::<SOME_WORDS, SOME_FACTS, MOST_CHAINS>(rows, tokens, len, scoped, first, text)
    } else {
        rounds_within::<MOST_WORDS, MOST_FACTS, MOST_CHAINS>(rows, tokens, len, scoped, first, text)
    }
}
