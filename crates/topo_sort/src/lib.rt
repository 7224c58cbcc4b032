// The order of bindings, as topo_sort_intermediates has it (01, "Order"): bindings free of others form a stack, the top
// is taken, and its dependents join the top when their last need is met. What needs what is a table of bits: row j,
// column i is yes where statement j needs statement i.
#![tactic(auto)]

pub mod links;
pub mod reads;
pub mod treelist;

ghost use Rattle.std.specs.Prelude.{◌≡◌, ◌&&◌, true, List, ℕ, ◌+◌, ◌≤◌, ◌<◌, eqb, length, get_or};
ghost use Rattle.words.specs.bits.Bits.{yes};
ghost use Rattle.spec_cse.specs.Order.{positions_taken};
ghost use Rattle.topo_sort.specs.Needs.{columns, table_of, all_or_ring, Orders};
ghost use Rattle.topo_sort.specs.Turns.{joins, Pushed, Met, Lowered, Counted, Room, Taken};

use words::bits::get;

// The most statements: a row of the table has as many places.
const MOST: usize = 2048;

// Words of a row of the table.
const WORDS: usize = 32;

// Why there is no order.
#[derive(Clone, Copy, Debug, PartialEq, Eq)]
pub enum OrderError {
    // Some are never taken, since they need each other or one needs itself; how many are.
    Ring(usize),
    // Too many statements, or too little is lent.
    Broken,
}

// How many statements statement j needs.
fn count_needs(needs: &[u64], j: usize, count: usize) -> usize
    ensures { result ≡ length (columns needs.now j 0 count) }
{
    (0..count).filter(|i| get(needs, j, *i)).count()
}

// Statement j joins the top of the stack where none of its needs is left. A stack is words that a caller lends, and how
// many of them are on it: nothing here allocates.
pub fn push_free(left: u64, j: usize, stack: &mut [u64], top: usize) -> usize
    requires { (top ≤ length stack.old) × (left ≡ 0 → top < length stack.old) }
    ensures { Pushed (eqb left 0) j stack.old top stack.new result }
{
    if left > 0 {
        return top;
    }
    stack[top] = j as u64;
    top + 1
}

// How many statements each statement needs.
fn count_all(needs: &[u64], count: usize, waiting: &mut [u64])
    requires { count ≤ length waiting.old }
    ensures { (k : ℕ) → k < count → get_or waiting.new k 0 ≡ length (columns needs.now k 0 count) }
{
    for j in 0..count {
        waiting[j] = count_needs(needs, j, count) as u64;
    }
}

// The stack at first: the statements free of others, ascending.
fn start(count: usize, waiting: &[u64], stack: &mut [u64]) -> usize
    requires { (count ≤ length waiting.now) × (count ≤ length stack.old) }
    ensures { (needs : List ℕ) → ((k : ℕ) → k < count → get_or waiting.now k 0 ≡ length (columns needs k 0 count))
        → Counted needs count waiting.now stack.new result }
{
    let mut top = 0;
    for j in 0..count {
        top = push_free(waiting[j], j, stack, top);
    }
    top
}

// One of statement j's needs is met; with none left it joins the stack.
fn meet_need(j: usize, waiting: &mut [u64], stack: &mut [u64], top: usize) -> usize
    requires j_in_bounds { (j < length waiting.old) × (top ≤ length stack.old) }
    requires bound { 1 ≤ get_or waiting.old j 0 }
    requires top_in_bounds { eqb (get_or waiting.old j 0) 1 ≡ true → top < length stack.old }
    ensures { Met true j waiting.old stack.old top waiting.new stack.new result }
{
    waiting[j] -= 1;
    push_free(waiting[j], j, stack, top)
}

// Statement i was taken: where statement j needs it, one of its needs is met.
fn meet(
    needs: &[u64],
    i: usize,
    j: usize,
    waiting: &mut [u64],
    stack: &mut [u64],
    top: usize,
) -> usize
    requires j_in_bounds { (j < length waiting.old) × (top ≤ length stack.old) }
    requires bound { yes needs.now j i ≡ true → 1 ≤ get_or waiting.old j 0 }
    requires top_in_bounds { (yes needs.now j i && eqb (get_or waiting.old j 0) 1) ≡ true → top < length stack.old }
    ensures { Met (yes needs.now j i) j waiting.old stack.old top waiting.new stack.new result }
{
    if !get(needs, j, i) {
        return top;
    }
    meet_need(j, waiting, stack, top)
}

// Statement i was taken: its dependents whose last need it is join the stack, by position.
fn join(
    needs: &[u64],
    count: usize,
    i: usize,
    waiting: &mut [u64],
    stack: &mut [u64],
    top: usize,
) -> usize
    requires count_in_bounds { (count ≤ length waiting.old) × (top + length (joins needs.now i waiting.old 0 count) ≤ length stack.old) }
    requires by_index { (k : ℕ) → k < count → yes needs.now k i ≡ true → 1 ≤ get_or waiting.old k 0 }
    ensures { Lowered needs.now count i waiting.old stack.old top waiting.new stack.new result }
{
    let mut t = top;
    for j in 0..count {
        t = meet(needs, i, j, waiting, stack, t);
    }
    t
}

// Takes the top until the stack is empty. The answer is how many were taken.
fn take_all(
    needs: &[u64],
    count: usize,
    waiting: &mut [u64],
    stack: &mut [u64],
    taken: &mut [u64],
) -> usize
    requires { Room count waiting.old stack.old taken.old }
    ensures { Taken (positions_taken (table_of needs.now count)) taken.old taken.new result }
{
    count_all(needs, count, waiting);
    let mut top = start(count, waiting, stack);
    let mut n = 0;
    // A while, since the stack grows by the dependents that join it.
    while top > 0 {
        let i = stack[top - 1];
        taken[n] = i;
        n += 1;
        top = join(needs, count, i as usize, waiting, stack, top - 1);
    }
    n
}

// Whether all were taken, by how many were.
fn all_taken(count: usize, n: usize) -> Result<(), OrderError>
    ensures { result ≡ all_or_ring (eqb n count) n }
{
    if n == count {
        Ok(())
    } else {
        Err(OrderError::Ring(n))
    }
}

// The positions in the order in which they are taken, at the front of `taken`. What is lent in `waiting` and `stack` is
// for the work.
pub fn order(
    needs: &[u64],
    count: usize,
    waiting: &mut [u64],
    stack: &mut [u64],
    taken: &mut [u64],
) -> Result<(), OrderError>
    ensures { Orders needs.now count waiting.old stack.old taken.old result waiting.new stack.new taken.new }
{
    if count > MOST
        || needs.len() < WORDS * count
        || waiting.len() < count
        || stack.len() < count
        || taken.len() < count
    {
        return Err(OrderError::Broken);
    }
    let n = take_all(needs, count, waiting, stack, taken);
    all_taken(count, n)
}
