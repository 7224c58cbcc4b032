// The end of flat extraction on words (01, "Reciprocals", "Order", "Turned down", refusal 12): the divisors at the
// places to bind are bound, the bindings are put in the order of their needs, and the answer's rows are counted and
// written. The trees after the rounds are settled once.
ghost use Rattle.std.specs.Prelude.{◌≡◌, true, ◌++◌, ◌+◌, ◌-◌, ◌*◌, ◌≤◌, ◌<◌, length, take, drop, replicate, T, IfSome};
ghost use Rattle.std.proofs.Math.Option.{some};
ghost use Rattle.spec_tree.specs.Tokens.{trees_in};
ghost use Rattle.topo_sort.specs.reads.Marks.{with_needs};
ghost use Rattle.topo_sort.specs.links.Links.{Lent, StmtLinked, Linked};
ghost use Rattle.reciprocals.specs.final.Entries.{entry_row, entry_tree};
ghost use Rattle.reciprocals.specs.final.Final.{final_rows};
ghost use Rattle.reciprocals.specs.final.Ready.{There, SettledFront, marks, InOrder, Positions, lent_rows};
ghost use Rattle.cse_flat.specs.ending.Answers.{by_number, finish_outcome, trees_there, room_for, tested, finishing, Room};
ghost use Rattle.cse_flat.specs.declared.ending.FinishError.TheVariants.{Refused};
ghost use Rattle.cse_flat.specs.ending.Needs.{needs_of};
ghost use Rattle.cse_flat.specs.trees.Runs.{tree_run, let_run, let_count, lets_taken, rows_of_entry, rows_of_all};

use crate::trees::FinalTrees;
use reciprocals::reciprocal::all_there;
use reciprocals::settle::settle;
use refusal::Refusal;
use topo_sort::links::{link_stmt, order_linked};
use topo_sort::reads::mark_needs;
use topo_sort::treelist::list_trees;
use topo_sort::{OrderError, order};
use words::copying::put;
use words::layout::{FIRST_LET, NEXT_NAME, RESULT};
use words::tokens::count_trees;

// The most words, and the most bindings.
const MOST: usize = 1024;

// Few bindings, so that most lists needn't clear the large arrays.
const FEW: usize = 64;

// The words of a row of a table of bits.
const ROW: usize = 32;

// Why there are no rows.
#[derive(Clone, Copy, Debug, PartialEq, Eq)]
pub enum FinishError {
    // Bindings that need each other, or an answer of more rows than lent.
    Refused(Refusal),
    // A word lacks operands, there are fewer trees than results, or no tree stands at one of the places.
    Broken,
    // More than 1,024 words, or bindings with the reciprocals.
    NoRoom,
}

impl From<Refusal> for FinishError {
    ghost from_gives = { λ r e. e ≡ Refused r };

    fn from(refusal: Refusal) -> FinishError {
        FinishError::Refused(refusal)
    }
}

// What binding j needs.
fn mark_one(trees: &FinalTrees, j: usize, room: &mut [u64], bits: &mut [u64])
    requires { (j < let_count trees.now) × (length trees.now.tokens.now + 2 ≤ length room.old) }
    ensures { bits.new ≡ with_needs (let_run trees.now j) j bits.old }
{
    let i = trees.results + j;
    let made = trees.make(i, room);
    mark_needs(trees.words(i, &room[..made]), j, bits);
}

// What each binding needs.
fn mark_all(trees: &FinalTrees, room: &mut [u64], bits: &mut [u64])
    requires { length trees.now.tokens.now + 2 ≤ length room.old }
    ensures { bits.new ≡ marks (let_run trees.now) (let_count trees.now) bits.old }
{
    for j in 0..trees.bindings() {
        mark_one(trees, j, room, bits);
    }
}

// The links of binding j, after the first n; how many there are then, if there is room for them.
fn link_one(
    trees: &FinalTrees,
    j: usize,
    room: &mut [u64],
    heads: &mut [u64],
    links: &mut [u64],
    waiting: &mut [u64],
    n: usize,
) -> Option<usize>
    requires j_bound { (j < let_count trees.now) × (length trees.now.tokens.now + 2 ≤ length room.old) }
    requires lent { Lent (length heads.old) n heads.old links.old waiting.old × (j < length heads.old) }
    ensures { IfSome result (λ m. StmtLinked (let_run trees.now j) (length heads.old) j
        heads.old links.old waiting.old m heads.new links.new waiting.new) }
{
    let i = trees.results + j;
    let made = trees.make(i, room);
    link_stmt(trees.words(i, &room[..made]), j, heads, links, waiting, n)
}

// The links of all bindings, from the last to the first, in lists that are empty. False where there is no room for
// them.
fn link_all(
    trees: &FinalTrees,
    room: &mut [u64],
    heads: &mut [u64],
    links: &mut [u64],
    waiting: &mut [u64],
) -> bool
    requires heads_len { (length heads.old ≡ let_count trees.now) × (length trees.now.tokens.now + 2 ≤ length room.old) }
    requires links_len_bound { (length links.old ≤ 65536) × (length heads.old ≤ length waiting.old) }
    requires heads_value { heads.old ≡ replicate (length heads.old) 0 }
    ensures { result ≡ true → Linked (needs_of trees.now.results trees.now.places.now trees.now.tokens.now (length heads.old)) (length heads.old)
        heads.new links.new waiting.new }
{
    let mut n = 0;
    for j in (0..heads.len()).rev() {
        let Some(more) = link_one(trees, j, room, heads, links, waiting, n) else {
            return false;
        };
        n = more;
    }
    true
}

// The positions of the bindings in the order in which they are taken, by a table of bits that has a row for each and is
// all no.
fn order_in(
    trees: &FinalTrees,
    room: &mut [u64],
    bits: &mut [u64],
    taken: &mut [u64],
) -> Result<(), OrderError>
    requires taken_long { let_count trees.now ≤ length taken.old }
    requires bits_value { (bits.old ≡ replicate (32 * let_count trees.now) 0) × (length trees.now.tokens.now + 2 ≤ length room.old) }
    ensures { InOrder (lets_taken trees.now) (let_count trees.now) taken.old taken.new result }
{
    let mut waiting = [0u64; MOST];
    let mut stack = [0u64; MOST];
    mark_all(trees, room, bits);
    order(bits, trees.bindings(), &mut waiting, &mut stack, taken)
}

// The same with a table in the work area, which has room for the most bindings.
fn order_by_bits(
    trees: &FinalTrees,
    room: &mut [u64],
    work: &mut [u64],
    taken: &mut [u64],
) -> Result<(), OrderError>
    requires taken_long { let_count trees.now ≤ length taken.old }
    requires tokens_in_bounds { (length trees.now.tokens.now + 2 ≤ length room.old) × (32768 ≤ length work.old) }
    ensures { InOrder (lets_taken trees.now) (let_count trees.now) taken.old taken.new result }
{
    let end = ROW * trees.bindings();
    work[..end].fill(0);
    order_in(trees, room, &mut work[..end], taken)
}

// The same by links in the work area, in lists that are empty, and by a table of bits where there is no room for them:
// a binding's links are no more than its words.
fn order_with(
    trees: &FinalTrees,
    room: &mut [u64],
    heads: &mut [u64],
    waiting: &mut [u64],
    stack: &mut [u64],
    work: &mut [u64],
    taken: &mut [u64],
) -> Result<(), OrderError>
    requires heads_len { (length heads.old ≡ let_count trees.now) × (length trees.now.tokens.now + 2 ≤ length room.old) }
    requires work_len { (length work.old ≡ 65536) × (length heads.old ≤ length waiting.old) }
    requires heads_in_bounds { (length heads.old ≤ length stack.old) × (length heads.old ≤ length taken.old) }
    requires heads_value { heads.old ≡ replicate (length heads.old) 0 }
    ensures { InOrder (lets_taken trees.now) (let_count trees.now) taken.old taken.new result }
{
    let count = heads.len();
    if link_all(trees, room, heads, work, waiting) {
        order_linked(heads, work, count, waiting, stack, taken)
    } else {
        order_by_bits(trees, room, work, taken)
    }
}

// The same in arrays for at most N bindings.
fn order_within<const N: usize>(
    trees: &FinalTrees,
    room: &mut [u64],
    waiting: &mut [u64],
    work: &mut [u64],
    taken: &mut [u64],
) -> Result<(), OrderError>
    requires taken_long { (let_count trees.now ≤ length taken.old) × (let_count trees.now ≤ length waiting.old) }
    requires tokens_in_bounds { (length trees.now.tokens.now + 2 ≤ length room.old) × (length work.old ≡ 65536) }
    requires arrays_long { (let_count trees.now ≤ N) × (N ≤ 1024) }
    ensures { InOrder (lets_taken trees.now) (let_count trees.now) taken.old taken.new result }
{
    let mut heads = [0u64; N];
    let mut stack = [0u64; N];
    let count = trees.bindings();
    order_with(
        trees,
        room,
        &mut heads[..count],
        waiting,
        &mut stack,
        work,
        taken,
    )
}

// The positions of the bindings in the order in which they are taken.
fn take_in_order(
    trees: &FinalTrees,
    room: &mut [u64],
    waiting: &mut [u64],
    work: &mut [u64],
    taken: &mut [u64],
) -> Result<(), OrderError>
    requires taken_long { (let_count trees.now ≤ length taken.old) × (let_count trees.now ≤ length waiting.old) }
    requires tokens_in_bounds { (length trees.now.tokens.now + 2 ≤ length room.old) × (length work.old ≡ 65536) }
    ensures { InOrder (lets_taken trees.now) (let_count trees.now) taken.old taken.new result }
{
    if trees.bindings() <= FEW {
        order_within::<FEW>(trees, room, waiting, work, taken)
    } else {
        order_within::<MOST>(trees, room, waiting, work, taken)
    }
}

// The row that entry q of the answer begins with: the bindings in order, and then the results.
fn row_of(trees: &FinalTrees, taken: &[u64], q: usize) -> u64
    requires { Positions taken.now (let_count trees.now) }
    ensures { result ≡ entry_row taken.now q }
{
    if q < taken.len() {
        FIRST_LET + NEXT_NAME * taken[q]
    } else {
        RESULT
    }
}

// The number of the tree of entry q.
fn tree_of(trees: &FinalTrees, taken: &[u64], q: usize) -> usize
    requires { Positions taken.now (let_count trees.now) }
    ensures { result ≡ entry_tree taken.now trees.now.results q }
{
    if q < taken.len() {
        trees.results + taken[q] as usize
    } else {
        q - taken.len()
    }
}

// How many rows entry q is.
fn entry_rows(trees: &FinalTrees, taken: &[u64], q: usize, room: &mut [u64]) -> usize
    requires positions { Positions taken.now (let_count trees.now) }
    requires q_in_bounds { (q < length taken.now + trees.now.results) × (length trees.now.tokens.now + 2 ≤ length room.old) }
    ensures { (result ≡ length (rows_of_entry trees.now taken.now q)) × (result ≤ 1027) }
{
    let i = tree_of(trees, taken, q);
    let made = trees.make(i, room);
    1 + trees.words(i, &room[..made]).len()
}

// How many rows the answer has.
fn count_rows(trees: &FinalTrees, taken: &[u64], room: &mut [u64]) -> usize
    requires positions { Positions taken.now (let_count trees.now) }
    requires tokens_in_bounds { length trees.now.tokens.now + 2 ≤ length room.old }
    ensures { result ≡ length (rows_of_all trees.now taken.now) }
{
    let mut rows = 0;
    for q in 0..taken.len() + trees.results {
        rows += entry_rows(trees, taken, q, room);
    }
    rows
}

// Writes the words of the tree of number i from a place on; the place after them.
fn put_tree(trees: &FinalTrees, i: usize, room: &mut [u64], at: usize, table: &mut [u64]) -> usize
    requires i_in_bounds { (i < length trees.now.starts.now + length trees.now.places.now) × (length trees.now.tokens.now + 2 ≤ length room.old) }
    requires at_in_bounds { at + length (tree_run trees.now i) ≤ length table.old }
    ensures { (result ≡ at + length (tree_run trees.now i))
        × (table.new ≡ take at table.old ++ (tree_run trees.now i ++ drop (at + length (tree_run trees.now i)) table.old)) }
{
    let made = trees.make(i, room);
    let words = trees.words(i, &room[..made]);
    put(words, at, table);
    at + words.len()
}

// Writes the rows of entry q from a place on.
fn write_entry(
    trees: &FinalTrees,
    taken: &[u64],
    q: usize,
    room: &mut [u64],
    at: usize,
    table: &mut [u64],
) -> usize
    requires positions { Positions taken.now (let_count trees.now) }
    requires tokens_in_bounds { length trees.now.tokens.now + 2 ≤ length room.old }
    requires q_in_bounds { (q < length taken.now + trees.now.results) × (at + length (rows_of_entry trees.now taken.now q) ≤ length table.old) }
    ensures { (result ≡ at + length (rows_of_entry trees.now taken.now q))
        × (table.new ≡ take at table.old ++ (rows_of_entry trees.now taken.now q
        ++ drop (at + length (rows_of_entry trees.now taken.now q)) table.old)) }
{
    table[at] = row_of(trees, taken, q);
    put_tree(trees, tree_of(trees, taken, q), room, at + 1, table)
}

// Writes the answer's rows to the front of the table.
fn write_rows(trees: &FinalTrees, taken: &[u64], room: &mut [u64], table: &mut [u64])
    requires positions { Positions taken.now (let_count trees.now) }
    requires tokens_in_bounds { length trees.now.tokens.now + 2 ≤ length room.old }
    requires rows_in_bounds { length (rows_of_all trees.now taken.now) ≤ length table.old }
    ensures { table.new ≡ rows_of_all trees.now taken.now ++ drop (length (rows_of_all trees.now taken.now)) table.old }
{
    let mut at = 0;
    for q in 0..taken.len() + trees.results {
        at = write_entry(trees, taken, q, room, at, table);
    }
}

// The answer's rows, where as many are lent.
fn write_answer(
    trees: &FinalTrees,
    taken: &[u64],
    room: &mut [u64],
    table: &mut [u64],
) -> Result<usize, Refusal>
    requires positions { Positions taken.now (let_count trees.now) }
    requires tokens_in_bounds { length trees.now.tokens.now + 2 ≤ length room.old }
    ensures { (by_number result ≡ (finish_outcome (lent_rows (length table.old) (rows_of_all trees.now taken.now) (length trees.now.starts.now - trees.now.results)) table.old).answer)
        × (table.new ≡ (finish_outcome (lent_rows (length table.old) (rows_of_all trees.now taken.now) (length trees.now.starts.now - trees.now.results)) table.old).table) }
{
    let rows = count_rows(trees, taken, room);
    if rows > table.len() {
        return Err(Refusal::TooManyRows);
    }
    write_rows(trees, taken, room, table);
    Ok(rows)
}

// The bindings in the order of their needs, and the answer's rows. There is room for the order, so it isn't broken.
fn finish_settled(
    trees: &FinalTrees,
    room: &mut [u64],
    taken: &mut [u64],
    waiting: &mut [u64],
    work: &mut [u64],
    table: &mut [u64],
) -> Result<usize, Refusal>
    requires tokens_in_bounds { length trees.now.tokens.now + 2 ≤ length room.old }
    requires places_in_bounds { (let_count trees.now ≤ length taken.old) × (let_count trees.now ≤ length waiting.old) × (length work.old ≡ 65536) }
    ensures { (by_number result ≡ (finish_outcome (final_rows (length table.old) trees.now.results trees.now.places.now trees.now.tokens.now) table.old).answer)
        × (table.new ≡ (finish_outcome (final_rows (length table.old) trees.now.results trees.now.places.now trees.now.tokens.now) table.old).table) }
{
    match take_in_order(trees, room, waiting, work, taken) {
        Ok(()) => write_answer(trees, &taken[..trees.bindings()], room, table),
        Err(OrderError::Ring(_)) => Err(Refusal::Ring),
        Err(OrderError::Broken) => unreachable!(),
    }
}

// Settles the trees after the rounds, in a copy of their words. They can be settled.
fn settle_all(
    tokens: &[u64],
    results: usize,
    trees: usize,
    places: &[u64],
    settled: &mut [u64],
) -> usize
    requires there { There tokens.now results trees places.now }
    requires tokens_in_bounds { length tokens.now ≤ length settled.old }
    ensures { SettledFront tokens.now results trees places.now settled.new result }
{
    put(tokens, 0, settled);
    let first = (trees - results) as u64;
    match settle(tokens, places, 0, first, settled, tokens.len()) {
        Ok(n) => n,
        Err(_) => unreachable!(),
    }
}

// Settles the trees after the rounds, and lists where each begins. They are there, and have room.
fn finish_there(
    tokens: &[u64],
    results: usize,
    count: usize,
    places: &[u64],
    settled: &mut [u64],
    starts: &mut [u64],
    room: &mut [u64],
    taken: &mut [u64],
    waiting: &mut [u64],
    work: &mut [u64],
    table: &mut [u64],
) -> Result<usize, Refusal>
    requires there { T (trees_there tokens.now results places.now) × T (room_for tokens.now results places.now) }
    requires counted { trees_in tokens.now ≡ some count }
    requires lent { Room tokens.now results places.now (length settled.old) (length starts.old) (length room.old) (length taken.old) (length waiting.old) (length work.old) }
    ensures { (by_number result ≡ (finish_outcome (final_rows (length table.old) results places.now tokens.now) table.old).answer)
        × (table.new ≡ (finish_outcome (final_rows (length table.old) results places.now tokens.now) table.old).table) }
{
    let n = settle_all(tokens, results, count, places, settled);
    let _ = list_trees(&settled[..n], starts);
    let trees = FinalTrees {
        tokens,
        results,
        places,
        settled: &settled[..n],
        starts: &starts[..count],
    };
    finish_settled(&trees, room, taken, waiting, work, table)
}

// The words of all trees are `results` results, then the bindings by number from 0 on; the divisors to bind stand at
// the places, in order. The answer's rows stand in front of what was in the table, and their number is told; or, on
// Err, nothing is written. What else is lent is worked in.
pub fn finish(
    tokens: &[u64],
    results: usize,
    places: &[u64],
    settled: &mut [u64],
    starts: &mut [u64],
    room: &mut [u64],
    taken: &mut [u64],
    waiting: &mut [u64],
    work: &mut [u64],
    table: &mut [u64],
) -> Result<usize, FinishError>
    requires { Room tokens.now results places.now (length settled.old) (length starts.old) (length room.old) (length taken.old) (length waiting.old) (length work.old) }
    ensures { (tested result ≡ (finishing tokens.now results places.now table.old).answer)
        × (table.new ≡ (finishing tokens.now results places.now table.old).table) }
{
    let Some(count) = count_trees(tokens) else {
        return Err(FinishError::Broken);
    };
    if results > count || !all_there(tokens, places) {
        return Err(FinishError::Broken);
    }
    if tokens.len() > MOST || places.len() > MOST - (count - results) {
        return Err(FinishError::NoRoom);
    }
    let rows = finish_there(
        tokens, results, count, places, settled, starts, room, taken, waiting, work, table,
    )?;
    Ok(rows)
}
