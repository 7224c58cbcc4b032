// `path_counts` and `count_subexprs` of the source (01, "Uses"): the facts of every place, the classes of equal trees
// among words of trees, and how often each tree is there, in one pass and in time near the number of words. From the
// right, an operation looks for its tree among those that stand for their class, in a chain found by its word and the
// classes of its operands. A leaf's class is its word, so it needs no search, and nobody asks how often it is there.
ghost use Rattle.std.specs.Prelude.{◌≡◌, true, cond, ◌+◌, ◌*◌, ◌≤◌, ◌<◌, length, get_or, eqb};
ghost use Rattle.spec_tree.specs.Bytes.{eq_bytes};
ghost use Rattle.spec_tree.specs.Tokens.{kind_of, takes};
ghost use Rattle.rounds.specs.measure.Columns.{Ready};
ghost use Rattle.rounds.specs.uses.Marks.{Complete};
ghost use Rattle.rounds.specs.value_numbers.Classes.{chains, chain_of, last_at, class_at, bucket_at};
ghost use Rattle.rounds.specs.value_numbers.Walks.{below, Walk, Sized, Put, LeafPut};
ghost use Rattle.rounds.specs.value_numbers.Tables.{Known, Links, Passing, Chase, Reset, Counted};
ghost use Rattle.rounds.specs.value_numbers.Answers.{Passed, Tables};

use crate::measure::{COST, DEPTH, PER_PLACE, SYMBOL, facts_at, symbol_of};
use words::layout::{CONST, KINDS};
use words::tokens::operand_count;

// So many places have the few chains, so that most rounds needn't reset many.
const FEW_WORDS: usize = 256;

const FEW_CHAINS: u64 = 256;

const MANY_CHAINS: u64 = 2048;

// A key is taken below 2^30, and its 64th added, so that all its parts tell chains apart.
const KEYS: u64 = 1073741824;

const SHIFT: u64 = 64;

// A leaf's word is 0 or 1 by SIDES, since its kind is; the class of an operation is SIDES times the place that stands
// for it, and OPERATION.
pub const SIDES: u64 = 4;

pub const OPERATION: u64 = 2;

// Whether the `count` trees from a on have the classes of those from b on.
fn same_below(facts: &[u64], classes: &[u64], a: usize, b: usize, count: usize) -> bool
    requires walk { Walk facts.now classes.now a count }
    requires walk_2 { Walk facts.now classes.now b count }
    ensures { result ≡ eq_bytes (below facts.now classes.now a count) (below facts.now classes.now b count) }
{
    let mut p = a;
    let mut q = b;
    for _ in 0..count {
        if classes[p] != classes[q] {
            return false;
        }
        p += facts[PER_PLACE * p] as usize;
        q += facts[PER_PLACE * q] as usize;
    }
    true
}

// The chain of a key, among so many words.
fn chain_of(words: usize, key: u64) -> usize
    ensures { (result ≡ chain_of words key) × (result < chains words) }
{
    let k = key % KEYS;
    let all = k + k / SHIFT;
    // each divisor is a constant, since `all % chain_count(words)` would be a division
    if words <= FEW_WORDS {
        (all % FEW_CHAINS) as usize
    } else {
        (all % MANY_CHAINS) as usize
    }
}

// How many chains there are.
fn chain_count(words: usize) -> usize
    ensures { result ≡ chains words }
{
    if words <= FEW_WORDS {
        FEW_CHAINS as usize
    } else {
        MANY_CHAINS as usize
    }
}

// Whether the trees at i and at p, a place past it, are equal.
fn same_node(tokens: &[u64], facts: &[u64], classes: &[u64], i: usize, p: usize) -> bool
    requires complete { Complete tokens.now }
    requires i_lt_p { (i < p) × (p < length tokens.now) }
    requires sized { Sized tokens.now (i + 1) facts.now }
    requires known { Known tokens.now (i + 1) classes.now }
    ensures { result ≡ eqb (class_at tokens.now i) (class_at tokens.now p) }
{
    let w = tokens[i];
    tokens[p] == w && same_below(facts, classes, i + 1, p + 1, operand_count(w) as usize)
}

// The place that stands for an operation: one past it in its chain, or itself.
fn find(
    tokens: &[u64],
    facts: &[u64],
    classes: &[u64],
    next: &[u64],
    start: usize,
    i: usize,
) -> usize
    requires complete { Complete tokens.now }
    requires i_in_bounds { i < length tokens.now }
    requires sized { Sized tokens.now (i + 1) facts.now }
    requires known { Known tokens.now (i + 1) classes.now }
    requires links { Links tokens.now (i + 1) next.now }
    requires chase { Chase tokens.now i start }
    ensures { result ≡ last_at tokens.now i }
{
    let mut p = start;
    // A walk along a chain: the next place may be any past p.
    while p < tokens.len() {
        if same_node(tokens, facts, classes, i, p) {
            return p;
        }
        p = next[p] as usize;
    }
    i
}

// The first place of a chain after the place i was met.
fn chosen(place: usize, i: usize, head: u64) -> u64
    ensures { result ≡ cond (eqb place i) i head }
{
    if place == i { i as u64 } else { head }
}

// Writes the facts and the class of a leaf.
fn put_leaf(w: u64, facts: &mut [u64], classes: &mut [u64], i: usize)
    requires { (4 * i + 3 < length facts.old) × (i < length classes.old) }
    ensures { LeafPut w i facts.old facts.new classes.old classes.new }
{
    let row = PER_PLACE * i;
    facts[row] = 1;
    facts[row + COST] = 0;
    facts[row + DEPTH] = 0;
    facts[row + SYMBOL] = symbol_of(w);
    classes[i] = w;
}

// Writes the facts of an operation, from those of its operands, and answers the chain that it is in.
fn put_facts(tokens: &[u64], facts: &mut [u64], classes: &[u64], i: usize) -> usize
    requires complete { Complete tokens.now × (i < length tokens.now) × (4 * length tokens.now ≤ length facts.old) }
    requires bound { 1 < kind_of (get_or tokens.now i 0) }
    requires sized { Sized tokens.now (i + 1) facts.old × Known tokens.now (i + 1) classes.now }
    requires ready { Ready (length tokens.now) facts.old (i + 1) (takes (get_or tokens.now i 0)) }
    ensures { Put tokens.now i facts.old facts.new × (result ≡ bucket_at tokens.now i) × (result < chains (length tokens.now)) }
{
    let f = facts_at(tokens, facts, classes, i);
    let row = PER_PLACE * i;
    facts[row] = f.size;
    facts[row + COST] = f.cost;
    facts[row + DEPTH] = f.depth;
    facts[row + SYMBOL] = f.symbol;
    chain_of(tokens.len(), f.key)
}

// Finds the place that stands for an operation, writes its class, and puts it into its chain where it stands for
// itself.
fn link(
    tokens: &[u64],
    facts: &[u64],
    classes: &mut [u64],
    next: &mut [u64],
    heads: &mut [u64],
    b: usize,
    i: usize,
) -> usize
    requires complete { Complete tokens.now × (i < length tokens.now) × (1 < kind_of (get_or tokens.now i 0)) }
    requires b_value { (b ≡ bucket_at tokens.now i) × (b < chains (length tokens.now)) }
    requires sized { Sized tokens.now (i + 1) facts.now }
    requires passing { Passing tokens.now (i + 1) classes.old next.old heads.old }
    ensures { (result ≡ last_at tokens.now i) × Passing tokens.now i classes.new next.new heads.new }
{
    let head = heads[b];
    let place = find(tokens, facts, classes, next, head as usize, i);
    classes[i] = SIDES * place as u64 + OPERATION;
    next[i] = head;
    heads[b] = chosen(place, i, head);
    place
}

// Enters the node at i: its facts, its class, and its use where it is an operation.
fn enter(
    tokens: &[u64],
    facts: &mut [u64],
    classes: &mut [u64],
    next: &mut [u64],
    heads: &mut [u64],
    uses: &mut [u64],
    i: usize,
)
    requires complete { Complete tokens.now × (i < length tokens.now) × (4 * length tokens.now ≤ length facts.old) }
    requires sized { Sized tokens.now (i + 1) facts.old × Ready (length tokens.now) facts.old (i + 1) (takes (get_or tokens.now i 0)) }
    requires passing { Passing tokens.now (i + 1) classes.old next.old heads.old × Counted tokens.now (λ j. true) (i + 1) uses.old }
    ensures { Put tokens.now i facts.old facts.new × Passing tokens.now i classes.new next.new heads.new
        × Counted tokens.now (λ j. true) i uses.new }
{
    let w = tokens[i];
    if w % KINDS <= CONST {
        put_leaf(w, facts, classes, i);
        return;
    }
    let b = put_facts(tokens, facts, classes, i);
    let place = link(tokens, facts, classes, next, heads, b, i);
    uses[place] += 1;
}

// The pass from the right: the facts of every place, its class, and the operations of each class counted. Each node is
// entered once; how often is told.
fn pass(
    tokens: &[u64],
    facts: &mut [u64],
    classes: &mut [u64],
    next: &mut [u64],
    heads: &mut [u64],
    uses: &mut [u64],
) -> usize
    requires complete { Complete tokens.now × (4 * length tokens.now ≤ length facts.old) }
    requires passing { Passing tokens.now (length tokens.now) classes.old next.old heads.old }
    requires counted { Counted tokens.now (λ j. true) (length tokens.now) uses.old }
    ensures { Passed tokens.now facts.old result facts.new classes.new uses.new }
{
    let mut entered: usize = 0;
    for i in (0..tokens.len()).rev() {
        entered += 1;
        enter(tokens, facts, classes, next, heads, uses, i);
    }
    entered
}

// Sets the first n entries.
pub fn reset(table: &mut [u64], n: usize, value: u64)
    requires { n ≤ length table.old }
    ensures { Reset table.old n value table.new }
{
    table[..n].fill(value);
}

// In one pass, the facts of every place, its class, and how many places have the tree of each operation: the counts
// stand at the place of its class. How many nodes were entered is told.
pub fn class_tables(
    tokens: &[u64],
    facts: &mut [u64],
    classes: &mut [u64],
    next: &mut [u64],
    heads: &mut [u64],
    uses: &mut [u64],
) -> usize
    requires complete { Complete tokens.now × (4 * length tokens.now ≤ length facts.old) × (chains (length tokens.now) ≤ length heads.old) }
    requires tokens_in_bounds { (length tokens.now ≤ length classes.old) × (length tokens.now ≤ length next.old) × (length tokens.now ≤ length uses.old) }
    ensures { Tables tokens.now facts.old result facts.new classes.new uses.new }
{
    let n = tokens.len();
    reset(heads, chain_count(n), n as u64);
    reset(uses, n, 0);
    pass(tokens, facts, classes, next, heads, uses)
}
