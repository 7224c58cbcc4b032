// The order of statements without a table of bits (01, "Order"): the statements that need one are a list of links,
// ascending, since the statements are read from the last to the first and each new link is put in front. A link is a
// statement and MOST times the number of the next link; numbers are from 1 on, and 0 is none.
ghost use Rattle.std.specs.Prelude.{◌≡◌, List, ℕ, ◌+◌, ◌≤◌, ◌<◌, IfSome, length, get_or};
ghost use Rattle.spec_cse.specs.Order.{positions_taken};
ghost use Rattle.topo_sort.specs.Needs.{table_of};
ghost use Rattle.topo_sort.specs.Turns.{Lowered, Room, Taken};
ghost use Rattle.topo_sort.specs.links.Links.{first_is, Linkable, Added, Named, Names, Lent, StmtLinked, Joinable, SomeJoinable, Linked, SomeLinked, OrdersLinked};

use crate::{OrderError, all_taken, meet_need, start};
use words::layout::{LET_NAME, NEXT_NAME};

// More than the number of any statement.
const MOST: u64 = 2048;

// Whether the list from link h on begins with statement j.
fn begins_with(links: &[u64], h: u64, j: usize) -> bool
    requires { h ≤ length links.now }
    ensures { result ≡ first_is links.now h j }
{
    h > 0 && links[h as usize - 1] % MOST == j as u64
}

// Statement j needs statement i: a link to it, unless there is one already.
fn add_link(i: usize, j: usize, heads: &mut [u64], links: &mut [u64], n: usize) -> usize
    requires { Linkable j n heads.old links.old × (i < length heads.old) }
    ensures { Added (first_is links.old (get_or heads.old i 0) j) i j n heads.old links.old result heads.new links.new }
{
    let h = heads[i];
    if begins_with(links, h, j) {
        return n;
    }
    links[n] = j as u64 + MOST * h;
    heads[i] = n as u64 + 1;
    n + 1
}

// Statement j reads a word: if it is that of a `__xN` which a statement binds, a link.
fn link_need(w: u64, j: usize, heads: &mut [u64], links: &mut [u64], n: usize) -> usize
    requires { Linkable j n heads.old links.old }
    ensures { Named w j n heads.old links.old result heads.new links.new }
{
    if w % NEXT_NAME != LET_NAME {
        return n;
    }
    let i = (w / NEXT_NAME) as usize;
    if i >= heads.len() {
        return n;
    }
    add_link(i, j, heads, links, n)
}

// The links of statement j, which reads some words, after the first n; how many there are then.
fn link_needs(words: &[u64], j: usize, heads: &mut [u64], links: &mut [u64], n: usize) -> usize
    requires j_bound { (j < 2048) × (n + length words.now ≤ length links.old) }
    requires links_len_bound { length links.old ≤ 65536 }
    requires by_index { (i : ℕ) → i < length heads.old → get_or heads.old i 0 ≤ n }
    ensures { Names words.now j n heads.old links.old result heads.new links.new }
{
    let mut m = n;
    for w in words {
        m = link_need(*w, j, heads, links, m);
    }
    m
}

// The links of statement j, which reads some words, after the first n, and how many statements it needs; how many links
// there are then. None where there may not be room for as many links as words.
pub fn link_stmt(
    words: &[u64],
    j: usize,
    heads: &mut [u64],
    links: &mut [u64],
    waiting: &mut [u64],
    n: usize,
) -> Option<usize>
    requires { Lent (length heads.old) n heads.old links.old waiting.old × (j < length heads.old) }
    ensures { IfSome result (λ m. StmtLinked words.now (length heads.old) j heads.old links.old waiting.old m
        heads.new links.new waiting.new) }
{
    if words.len() > links.len() - n {
        return None;
    }
    let m = link_needs(words, j, heads, links, n);
    waiting[j] = (m - n) as u64;
    Some(m)
}

// A statement was taken: those that need it are linked from `head` on, and where it was the last that they need they
// join the stack.
fn join_linked(
    links: &[u64],
    head: u64,
    waiting: &mut [u64],
    stack: &mut [u64],
    top: usize,
) -> usize
    requires { SomeJoinable links.now head waiting.old stack.old top }
    ensures { (needs : List ℕ) (count i : ℕ) → Joinable needs count i links.now head waiting.old stack.old top
        → Lowered needs count i waiting.old stack.old top waiting.new stack.new result }
{
    let mut t = top;
    let mut h = head;
    // A while, since each link tells the next.
    while h > 0 {
        let link = links[h as usize - 1];
        t = meet_need((link % MOST) as usize, waiting, stack, t);
        h = link / MOST;
    }
    t
}

// Takes the top until the stack is empty. The answer is how many were taken. Beside `take_all`, since the links are those
// of every table that says the same: one function of both would have to be handed a table that isn't there.
fn take_linked(
    heads: &[u64],
    links: &[u64],
    count: usize,
    waiting: &mut [u64],
    stack: &mut [u64],
    taken: &mut [u64],
) -> usize
    requires room { Room count waiting.old stack.old taken.old × (count ≤ length heads.now) }
    requires some_linked { SomeLinked count heads.now links.now waiting.old }
    ensures { (needs : List ℕ) → Linked needs count heads.now links.now waiting.old
        → Taken (positions_taken (table_of needs count)) taken.old taken.new result }
{
    let mut top = start(count, waiting, stack);
    let mut n = 0;
    // A while, since the stack grows by the dependents that join it.
    while top > 0 {
        let i = stack[top - 1];
        taken[n] = i;
        n += 1;
        top = join_linked(links, heads[i as usize], waiting, stack, top - 1);
    }
    n
}

// The positions in the order in which they are taken, at the front of `taken`. What is lent in `waiting` and `stack` is
// for the work.
pub fn order_linked(
    heads: &[u64],
    links: &[u64],
    count: usize,
    waiting: &mut [u64],
    stack: &mut [u64],
    taken: &mut [u64],
) -> Result<(), OrderError>
    requires room { Room count waiting.old stack.old taken.old × (count ≤ length heads.now) }
    requires some_linked { SomeLinked count heads.now links.now waiting.old }
    ensures { (needs : List ℕ) → Linked needs count heads.now links.now waiting.old
        → OrdersLinked needs count taken.old result taken.new }
{
    let n = take_linked(heads, links, count, waiting, stack, taken);
    all_taken(count, n)
}
