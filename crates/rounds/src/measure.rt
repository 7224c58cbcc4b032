// The facts of a tree among words, from those of its operands: size, cost, depth, and whether it has a symbol; and the
// key of the chain in which equal trees are looked for, from its word and the classes of its operands. One walk over
// the operands finds all of it.
ghost use Rattle.std.specs.Prelude.{◌≡◌, ◌+◌, ◌*◌, ◌^◌, ◌<◌, max, length, get_or};
ghost use Rattle.spec_tree.specs.Facts.{total, greatest};
ghost use Rattle.spec_tree.specs.Tokens.{kind_of, takes};
ghost use Rattle.rounds.specs.measure.Columns.{column, Inside, Ready, own_symbol, operand_costs, WordFacts};
ghost use Rattle.rounds.specs.measure.Operands.{Together};
ghost use Rattle.rounds.specs.value_numbers.Classes.{mixed, mixed_all};
ghost use Rattle.rounds.specs.value_numbers.Walks.{below, Walk};

use words::layout::{KINDS, SELECT, SYM};

// Each place has PER_PLACE words of facts, in this order; the size is the first. They are words of one slice, and no
// structs, since a caller lends the slice, and since it serves for other words when the best place is found.
pub const PER_PLACE: usize = 4;

pub const COST: usize = 1;

pub const DEPTH: usize = 2;

pub const SYMBOL: usize = 3;

// Numbers in a key are taken below 2^20, so that no product is too large.
const PART: u64 = 1048576;

const FACTOR: u64 = 1021;

// The facts of one tree; `symbol` is 1 where it has a symbol, and else 0. `key` is that of its chain.
#[derive(Clone, Copy, Debug, PartialEq, Eq)]
pub struct Facts {
    pub size: u64,
    pub cost: u64,
    pub depth: u64,
    pub symbol: u64,
    pub key: u64,
}

// One more number in a key.
fn mix(key: u64, x: u64) -> u64
    ensures { result ≡ mixed key x }
{
    key % PART * FACTOR + x % PART
}

// What the `count` trees from `place` on have together: the sums of their sizes and costs, the greatest depth, and
// whether one has a symbol; and the key of the word w with their classes. The size of each says where the next one
// starts.
fn walk(facts: &[u64], classes: &[u64], w: u64, place: usize, count: usize) -> Facts
    requires inside { Inside facts.now place count × Walk facts.now classes.now place count }
    requires count_bound { (total (column facts.now 0 place count) < 2 ^ 64) × (total (column facts.now 1 place count) < 2 ^ 64) }
    ensures { Together facts.now classes.now w place count result.size result.cost result.depth result.symbol result.key }
{
    let mut size: u64 = 0;
    let mut cost: u64 = 0;
    let mut depth: u64 = 0;
    let mut symbol: u64 = 0;
    let mut key = w;
    let mut p = place;
    for _ in 0..count {
        let row = PER_PLACE * p;
        let own = facts[row];
        key = mix(key, classes[p]);
        size += own;
        cost += facts[row + COST];
        depth = depth.max(facts[row + DEPTH]);
        symbol = symbol.max(facts[row + SYMBOL]);
        p += own as usize;
    }
    Facts {
        size,
        cost,
        depth,
        symbol,
        key,
    }
}

// The same for two trees, which most operations have: the second starts after the first. It stands beside `walk` for
// speed, since it has no loop.
fn both(facts: &[u64], classes: &[u64], w: u64, place: usize) -> Facts
    requires inside { Inside facts.now place 2 × Walk facts.now classes.now place 2 }
    requires place_bound { (total (column facts.now 0 place 2) < 2 ^ 64) × (total (column facts.now 1 place 2) < 2 ^ 64) }
    ensures { Together facts.now classes.now w place 2 result.size result.cost result.depth result.symbol result.key }
{
    let row = PER_PLACE * place;
    let size = facts[row];
    let second = place + size as usize;
    let other = PER_PLACE * second;
    let key = mix(w, classes[place]);
    Facts {
        size: size + facts[other],
        cost: facts[row + COST] + facts[other + COST],
        depth: facts[row + DEPTH].max(facts[other + DEPTH]),
        symbol: facts[row + SYMBOL].max(facts[other + SYMBOL]),
        key: mix(key, classes[second]),
    }
}

// What the operands of a word have together.
fn of_operands(facts: &[u64], classes: &[u64], w: u64, place: usize, count: usize) -> Facts
    requires inside { Inside facts.now place count × Walk facts.now classes.now place count }
    requires count_bound { (total (column facts.now 0 place count) < 2 ^ 64) × (total (column facts.now 1 place count) < 2 ^ 64) }
    ensures { Together facts.now classes.now w place count result.size result.cost result.depth result.symbol result.key }
{
    if count == 2 {
        both(facts, classes, w, place)
    } else {
        walk(facts, classes, w, place, count)
    }
}

// The greatest cost of the `count` trees from `place` on, 0 where there are none.
fn greatest_cost(facts: &[u64], place: usize, count: usize) -> u64
    requires { Inside facts.now place count }
    ensures { result ≡ greatest (column facts.now 1 place count) }
{
    let mut most: u64 = 0;
    let mut p = place;
    for _ in 0..count {
        let row = PER_PLACE * p;
        most = most.max(facts[row + COST]);
        p += facts[row] as usize;
    }
    most
}

// What the operands of an operation cost, from the sum: of a Select the index and its dearest arm, of any other the
// sum.
fn operands_cost(facts: &[u64], kind: u64, place: usize, count: usize, sum: u64) -> u64
    requires { Inside facts.now place count × (sum ≡ total (column facts.now 1 place count)) }
    ensures { result ≡ operand_costs kind (column facts.now 1 place count) }
{
    if kind < SELECT {
        return sum;
    }
    if count == 0 {
        return 0;
    }
    let row = PER_PLACE * place;
    let arms = place + facts[row] as usize;
    facts[row + COST] + greatest_cost(facts, arms, count - 1)
}

// 1 for a symbol.
pub fn symbol_of(w: u64) -> u64
    ensures { result ≡ own_symbol w }
{
    u64::from(w % KINDS == SYM)
}

// The facts of the operation at a place, from those of its operands, which come after it.
pub fn facts_at(tokens: &[u64], facts: &[u64], classes: &[u64], at: usize) -> Facts
    requires at_in_bounds { (at < length tokens.now) × (1 < kind_of (get_or tokens.now at 0)) }
    requires ready { Ready (length tokens.now) facts.now (at + 1) (takes (get_or tokens.now at 0)) }
    requires walk { Walk facts.now classes.now (at + 1) (takes (get_or tokens.now at 0)) }
    ensures { WordFacts (get_or tokens.now at 0) facts.now (at + 1) result.size result.cost result.depth result.symbol
        × (result.key ≡ mixed_all (get_or tokens.now at 0) (below facts.now classes.now (at + 1) (takes (get_or tokens.now at 0)))) }
{
    let w = tokens[at];
    let count = (w / KINDS) as usize;
    let all = of_operands(facts, classes, w, at + 1, count);
    let costs = operands_cost(facts, w % KINDS, at + 1, count, all.cost);
    Facts {
        size: 1 + all.size,
        cost: 1 + costs,
        depth: 1 + all.depth,
        symbol: all.symbol,
        key: all.key,
    }
}
