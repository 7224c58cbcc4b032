// The parts of one scope once its arms are done (01, "Scoped fusion", "Order"): its statements put in the order of
// their needs, and the rows of a let, of the values and of a match before its arms. A tree is taken from what the
// scope holds or, as a reciprocal, made when it is needed; then its members are replaced by their names.
#![tactic(auto)]

pub mod holding;

ghost use Rattle.std.specs.Prelude.{◌≡◌, ◌++◌, ◌+◌, ◌-◌, ◌*◌, ◌≤◌, ◌<◌, T, length, take, drop, replicate};
ghost use Rattle.words.specs.words.Words.{Complete};
ghost use Rattle.reciprocals.specs.reciprocal.Bindings.{all_there};
ghost use Rattle.topo_sort.specs.treelist.Starts.{starts_of};
ghost use Rattle.reciprocals.specs.final.Ready.{Stands};
ghost use Rattle.fusion.specs.place.Overlay.{overlay};
ghost use Rattle.fusion.specs.place.Parts.{place_groups, let_run, value_run, lets_count, match_head};
ghost use Rattle.fusion.specs.place.Reads.{with_reads};
ghost use Rattle.fusion.specs.place.Whole.{stmts_count, tree_run, reads_run, needs_table, stmts_order, values_runs};
ghost use Rattle.statements.specs.Prepared.{Prepared, Readied, Grouped, Roomy, run_number, reciprocal_run, settled_run, Fusable, fused_by, begin_of, order_told, match_reads, head_run};
ghost use Rattle.statements.specs.Scopes.{IsPrepared, IsReadied, IsGrouped, tree_at, bound_by, count_of, order_of, key_of, head_of};

use crate::holding::no_switch;
use fusion::fuse::fuse;
use fusion::scopeneeds::Names;
use fusion::tables::{put, put_names, put_word};
use reciprocals::reciprocal::reciprocal;
use topo_sort::{OrderError, order};
use words::layout::{FIRST_LET, KINDS, NEXT_NAME};
use words::tokens::end_of;

// The most statements.
const MOST: usize = 2048;

// The words of a row of a table of bits, and of a table with a row for each of the most statements.
const ROW: usize = 32;

const BITS: usize = 65536;

// Of a table for 64 statements, so that most of the other scopes needn't clear the large one.
const FEW_BITS: usize = 2048;

// The most words of a tree: a reciprocal has two besides its divisor's.
const TREE: usize = 1929;

// Few words, the most words of a tree among them, few statements and the words of a table for them, so that most
// scopes needn't clear the long arrays.
const FEW_WORDS: usize = 128;

const FEW_TREE: usize = 130;

const FEW: usize = 32;

const FEW_ROWS: usize = 1024;

// A match's row has the kind of its switches and MATCH more.
const MATCH: u64 = 4;

// The parts of a scope that its lets and values are made of. The public functions take them one by one, since `held`
// is the front of an area whose rest their caller works on between the calls.
#[derive(Clone, Copy)]
struct Scope<'a> {
    // The words that rounds leave: so many results, and then the lets by number from `first` on.
    tokens: &'a [u64],
    results: usize,
    first: u64,
    // Where the divisors to bind stand in the tokens.
    places: &'a [u64],
    // What the scope holds, and where its results and lets begin there.
    held: &'a [u64],
    starts: &'a [u64],
    // Where the members of all groups stand in what is held, and their numbers.
    members: &'a [u64],
    numbers: &'a [u64],
}

// The parts that its matches are made of, with where each group ends among the members.
#[derive(Clone, Copy)]
struct Matches<'a> {
    held: &'a [u64],
    members: &'a [u64],
    ends: &'a [u64],
    numbers: &'a [u64],
}

// The tree of number i among some words, at the front of `tree`.
fn take_held(held: &[u64], starts: &[u64], i: usize, tree: &mut [u64]) -> usize
    requires complete { Complete held.now × (length held.now ≤ 65536) }
    requires starts_value { (starts.now ≡ take (length starts.now) (starts_of held.now)) × (i < length starts.now) }
    requires i_in_bounds { length (run_number held.now i) ≤ length tree.old }
    ensures { Stands (run_number held.now i) tree.new result }
{
    let at = starts[i] as usize;
    let end = end_of(held, at).unwrap();
    put(&held[at..end], 0, tree);
    end - at
}

// The reciprocal of number j, those of the divisors numbered from `number` on: what `reciprocal` promises, as a tree
// of the scope by its number. holding has its own, which says it as a part of a list.
fn take_reciprocal(tokens: &[u64], places: &[u64], number: u64, j: usize, tree: &mut [u64]) -> usize
    requires complete { Complete tokens.now × T (all_there tokens.now places.now) × (length tokens.now ≤ 1927) }
    requires number_bound { (number ≤ 4294967296) × (length places.now ≤ 4294967296) }
    requires j_in_bounds { (j < length places.now) × (length tokens.now + 2 ≤ length tree.old) }
    ensures { Stands (reciprocal_run tokens.now places.now number j) tree.new result }
{
    reciprocal(tokens, places, number, j, tree)
}

// The first `len` words with the members replaced, each a switch: words without one stay as they are. They can always
// be replaced.
fn fuse_words(held: &[u64], members: &[u64], numbers: &[u64], tree: &mut [u64], len: usize) -> usize
    requires fusable { Fusable held.now members.now numbers.now }
    requires len_in_bounds { (len ≤ length tree.old) × (len ≤ 1929) }
    requires complete { Complete (take len tree.old) }
    ensures { Stands (fused_by held.now members.now numbers.now (take len tree.old)) tree.new result }
{
    if no_switch(&tree[..len]) {
        return len;
    }
    fuse(held, members, numbers, tree, len).unwrap()
}

// Where group g begins among the members.
fn group_begin(ends: &[u64], g: usize) -> usize
    requires { g < length ends.now }
    ensures { result ≡ begin_of ends.now g }
{
    if g == 0 { 0 } else { ends[g - 1] as usize }
}

impl<'a> Matches<'a> {
    // The key of group g, with the members of later groups replaced.
    fn take_key(&self, g: usize, tree: &mut [u64]) -> usize
        requires grouped { IsGrouped self.now }
        requires g_in_bounds { (g < length self.now.ends.now) × Roomy self.now.held.now (length tree.old) }
        ensures { Stands (key_of self.now g) tree.new result }
    {
        let begin = group_begin(self.ends, g);
        let end = self.ends[g] as usize;
        let key = self.members[begin] as usize + 1;
        let stop = end_of(self.held, key).unwrap();
        put(&self.held[key..stop], 0, tree);
        fuse_words(
            self.held,
            &self.members[end..],
            &self.numbers[end..],
            tree,
            stop - key,
        )
    }

    // What the match of group g reads, in the row of a statement.
    fn mark_match(
        &self,
        first: u64,
        lets: usize,
        g: usize,
        row: usize,
        tree: &mut [u64],
        bits: &mut [u64],
    )
        requires grouped { IsGrouped self.now }
        requires g_in_bounds { (g < length self.now.ends.now) × Roomy self.now.held.now (length tree.old) }
        ensures { bits.new ≡ with_reads first lets self.now.numbers.now self.now.ends.now
            (match_reads self.now.held.now (place_groups self.now.held.now) self.now.numbers.now g) row bits.old }
    {
        let names = Names {
            first,
            lets,
            numbers: self.numbers,
            ends: self.ends,
        };
        let n = self.take_key(g, tree);
        names.mark_reads(&tree[..n], row, bits);
        let begin = group_begin(self.ends, g);
        let end = self.ends[g] as usize;
        names.mark_arms(self.held, &self.members[begin..end], row, bits);
    }

    // The row of the match of group g: below it stand its key, its names and its arms.
    fn head_row(&self, g: usize) -> u64
        requires grouped { IsGrouped self.now }
        requires g_in_bounds { g < length self.now.ends.now }
        ensures { result ≡ match_head self.now.held.now (place_groups self.now.held.now) self.now.numbers.now g }
    {
        let begin = group_begin(self.ends, g);
        let end = self.ends[g] as usize;
        let w = self.held[self.members[begin] as usize];
        w % KINDS + MATCH + KINDS * (w / KINDS + (end - begin) as u64)
    }

    // Writes the rows of the match of group g before its arms, from a place on: its own, its key's and its names';
    // the place after them.
    fn head_with(&self, g: usize, tree: &mut [u64], at: usize, table: &mut [u64]) -> usize
        requires grouped { IsGrouped self.now }
        requires g_in_bounds { (g < length self.now.ends.now) × Roomy self.now.held.now (length tree.old) }
        requires g_bound { at + length (head_of self.now g) ≤ 9223372036854775808 }
        ensures { (result ≡ at + length (head_of self.now g)) × (table.new ≡ overlay at (head_of self.now g) table.old) }
    {
        let n = self.take_key(g, tree);
        let begin = group_begin(self.ends, g);
        let end = self.ends[g] as usize;
        put_word(self.head_row(g), at, table);
        put(&tree[..n], at + 1, table);
        put_names(&self.numbers[begin..end], at + 1 + n, table);
        at + 1 + n + (end - begin)
    }

    // The same with an array of N words for the key.
    fn head_within<const N: usize>(&self, g: usize, at: usize, table: &mut [u64]) -> usize
        requires grouped { IsGrouped self.now }
        requires g_in_bounds { (g < length self.now.ends.now) × Roomy self.now.held.now N }
        requires array_bound { N ≤ 1929 }
        requires g_bound { at + length (head_of self.now g) ≤ 9223372036854775808 }
        ensures { (result ≡ at + length (head_of self.now g)) × (table.new ≡ overlay at (head_of self.now g) table.old) }
    {
        let mut tree = [0u64; N];
        self.head_with(g, &mut tree, at, table)
    }
}

impl<'a> Scope<'a> {
    // The tree of number i of results, lets and reciprocals, before members are replaced.
    fn take_tree(&self, i: usize, tree: &mut [u64]) -> usize
        requires readied { IsReadied self.now }
        requires i_in_bounds { (i < length self.now.starts.now + length self.now.places.now) × (length self.now.tokens.now + 2 ≤ length tree.old) }
        ensures { Stands (settled_run self.now.tokens.now self.now.results self.now.first self.now.places.now i) tree.new result }
    {
        if i < self.starts.len() {
            return take_held(self.held, self.starts, i, tree);
        }
        let number = self.first + (self.starts.len() - self.results) as u64;
        take_reciprocal(
            self.tokens,
            self.places,
            number,
            i - self.starts.len(),
            tree,
        )
    }

    // The final tree of number i of results, lets and reciprocals.
    fn take_final(&self, i: usize, tree: &mut [u64]) -> usize
        requires readied { IsReadied self.now }
        requires i_in_bounds { (i < length self.now.starts.now + length self.now.places.now) × (length self.now.tokens.now + 2 ≤ length tree.old) }
        ensures { Stands (tree_at self.now i) tree.new result }
    {
        let n = self.take_tree(i, tree);
        fuse_words(self.held, self.members, self.numbers, tree, n)
    }

    // What the let of number p reads.
    fn mark_let(&self, ends: &[u64], p: usize, tree: &mut [u64], bits: &mut [u64])
        requires prepared { IsPrepared self.now ends.now }
        requires p_bound { (p < bound_by self.now) × (length self.now.tokens.now + 2 ≤ length tree.old) }
        ensures { bits.new ≡ with_reads self.now.first (bound_by self.now) self.now.numbers.now ends.now (tree_at self.now (self.now.results + p)) p bits.old }
    {
        let n = self.take_final(self.results + p, tree);
        let lets = self.starts.len() - self.results + self.places.len();
        let names = Names {
            first: self.first,
            lets,
            numbers: self.numbers,
            ends,
        };
        names.mark_reads(&tree[..n], p, bits);
    }

    // What statement p reads.
    fn mark_stmt(&self, ends: &[u64], p: usize, tree: &mut [u64], bits: &mut [u64])
        requires prepared { IsPrepared self.now ends.now }
        requires p_bound { (p < count_of self.now) × (length self.now.tokens.now + 2 ≤ length tree.old) }
        ensures { bits.new ≡ with_reads self.now.first (bound_by self.now) self.now.numbers.now ends.now
            (reads_run self.now.tokens.now self.now.results self.now.first self.now.places.now self.now.numbers.now p) p bits.old }
    {
        let lets = self.starts.len() - self.results + self.places.len();
        if p < lets {
            self.mark_let(ends, p, tree, bits);
        } else {
            let matches = Matches {
                held: self.held,
                members: self.members,
                ends,
                numbers: self.numbers,
            };
            matches.mark_match(self.first, lets, p - lets, p, tree, bits);
        }
    }

    // What each of the first statements reads.
    fn mark_stmts(&self, ends: &[u64], count: usize, tree: &mut [u64], bits: &mut [u64])
        requires prepared { IsPrepared self.now ends.now }
        requires count_bound { (count ≤ count_of self.now) × (length self.now.tokens.now + 2 ≤ length tree.old) }
        ensures { bits.new ≡ needs_table self.now.tokens.now self.now.results self.now.first self.now.places.now self.now.numbers.now count bits.old }
    {
        for p in 0..count {
            self.mark_stmt(ends, p, tree, bits);
        }
    }

    // The positions of the statements in the order in which they are taken, in front of what was in `taken`, by a
    // table of bits that has a row for each and is all no.
    fn order_with(
        &self,
        ends: &[u64],
        count: usize,
        tree: &mut [u64],
        waiting: &mut [u64],
        stack: &mut [u64],
        bits: &mut [u64],
        taken: &mut [u64],
    ) -> Result<(), OrderError>
        requires prepared { IsPrepared self.now ends.now }
        requires count_value { (count ≡ count_of self.now) × (2048 ≤ length taken.old) }
        requires tokens_in_bounds { (length self.now.tokens.now + 2 ≤ length tree.old) × (count ≤ length waiting.old) × (count ≤ length stack.old) }
        requires bits_value { bits.old ≡ replicate (32 * count) 0 }
        ensures { (result ≡ order_told (order_of self.now) (count_of self.now)) × (taken.new ≡ order_of self.now ++ drop (length (order_of self.now)) taken.old) }
    {
        self.mark_stmts(ends, count, tree, bits);
        order(bits, count, waiting, stack, taken)
    }

    // The same in arrays for a tree of N words and for M statements.
    fn order_within<const N: usize, const M: usize>(
        &self,
        ends: &[u64],
        count: usize,
        bits: &mut [u64],
        taken: &mut [u64],
    ) -> Result<(), OrderError>
        requires prepared { IsPrepared self.now ends.now }
        requires count_value { (count ≡ count_of self.now) × (2048 ≤ length taken.old) }
        requires tokens_in_bounds { (length self.now.tokens.now + 2 ≤ N) × (count ≤ M) }
        requires array_bound { (N ≤ 1929) × (M ≤ 2048) }
        requires bits_value { bits.old ≡ replicate (32 * count) 0 }
        ensures { (result ≡ order_told (order_of self.now) (count_of self.now)) × (taken.new ≡ order_of self.now ++ drop (length (order_of self.now)) taken.old) }
    {
        let mut tree = [0u64; N];
        let mut waiting = [0u64; M];
        let mut stack = [0u64; M];
        self.order_with(
            ends,
            count,
            &mut tree,
            &mut waiting,
            &mut stack,
            bits,
            taken,
        )
    }

    // The same by a table that is all no: the one lent where it has a row for each statement, and else the largest.
    // Since this function calls itself, the compiler keeps its frame apart from its caller's, so that the largest
    // table isn't on the stack of each open scope.
    fn order_in(
        &self,
        ends: &[u64],
        count: usize,
        bits: &mut [u64],
        taken: &mut [u64],
    ) -> Result<(), OrderError>
        requires prepared { IsPrepared self.now ends.now }
        requires count_value { (count ≡ count_of self.now) × (2048 ≤ length taken.old) }
        requires bits_value { bits.old ≡ replicate (length bits.old) 0 }
        ensures { (result ≡ order_told (order_of self.now) (count_of self.now)) × (taken.new ≡ order_of self.now ++ drop (length (order_of self.now)) taken.old) }
    {
        let end = ROW * count;
        if bits.len() < end {
            let mut largest = [0u64; BITS];
            return self.order_in(ends, count, &mut largest, taken);
        }
        self.order_within::<TREE, MOST>(ends, count, &mut bits[..end], taken)
    }

    // The same for many words or statements.
    fn order_wide(&self, ends: &[u64], count: usize, taken: &mut [u64]) -> Result<(), OrderError>
        requires prepared { IsPrepared self.now ends.now }
        requires count_value { (count ≡ count_of self.now) × (2048 ≤ length taken.old) }
        ensures { (result ≡ order_told (order_of self.now) (count_of self.now)) × (taken.new ≡ order_of self.now ++ drop (length (order_of self.now)) taken.old) }
    {
        let mut bits = [0u64; FEW_BITS];
        self.order_in(ends, count, &mut bits, taken)
    }

    // The same for few words and few statements.
    fn order_few(&self, ends: &[u64], count: usize, taken: &mut [u64]) -> Result<(), OrderError>
        requires prepared { IsPrepared self.now ends.now }
        requires count_value { (count ≡ count_of self.now) × (2048 ≤ length taken.old) }
        requires tokens_len_bound { (length self.now.tokens.now ≤ 128) × (count ≤ 32) }
        ensures { (result ≡ order_told (order_of self.now) (count_of self.now)) × (taken.new ≡ order_of self.now ++ drop (length (order_of self.now)) taken.old) }
    {
        let mut bits = [0u64; FEW_ROWS];
        let end = ROW * count;
        self.order_within::<FEW_TREE, FEW>(ends, count, &mut bits[..end], taken)
    }

    // The same for all.
    fn order_all(&self, ends: &[u64], taken: &mut [u64]) -> Result<(), OrderError>
        requires prepared { IsPrepared self.now ends.now }
        requires in_bounds { 2048 ≤ length taken.old }
        ensures { (result ≡ order_told (order_of self.now) (count_of self.now)) × (taken.new ≡ order_of self.now ++ drop (length (order_of self.now)) taken.old) }
    {
        let count = self.starts.len() - self.results + self.places.len() + ends.len();
        if self.tokens.len() > FEW_WORDS || count > FEW {
            self.order_wide(ends, count, taken)
        } else {
            self.order_few(ends, count, taken)
        }
    }

    // Makes the final tree of number i and writes it from a place on; the place after it.
    fn make_with(&self, i: usize, tree: &mut [u64], at: usize, table: &mut [u64]) -> usize
        requires readied { IsReadied self.now }
        requires i_in_bounds { (i < length self.now.starts.now + length self.now.places.now) × (at + length (tree_at self.now i) ≤ 9223372036854775808) }
        requires tokens_in_bounds { length self.now.tokens.now + 2 ≤ length tree.old }
        ensures { (result ≡ at + length (tree_at self.now i)) × (table.new ≡ overlay at (tree_at self.now i) table.old) }
    {
        let n = self.take_final(i, tree);
        put(&tree[..n], at, table);
        at + n
    }

    // The same in an array of N words.
    fn make_within<const N: usize>(&self, i: usize, at: usize, table: &mut [u64]) -> usize
        requires readied { IsReadied self.now }
        requires i_in_bounds { (i < length self.now.starts.now + length self.now.places.now) × (at + length (tree_at self.now i) ≤ 9223372036854775808) }
        requires tokens_in_bounds { length self.now.tokens.now + 2 ≤ N }
        requires array_bound { N ≤ 1929 }
        ensures { (result ≡ at + length (tree_at self.now i)) × (table.new ≡ overlay at (tree_at self.now i) table.old) }
    {
        let mut tree = [0u64; N];
        self.make_with(i, &mut tree, at, table)
    }

    // The same in the shorter array where it has room.
    fn make_tree(&self, i: usize, at: usize, table: &mut [u64]) -> usize
        requires readied { IsReadied self.now }
        requires i_in_bounds { (i < length self.now.starts.now + length self.now.places.now) × (at + length (tree_at self.now i) ≤ 9223372036854775808) }
        ensures { (result ≡ at + length (tree_at self.now i)) × (table.new ≡ overlay at (tree_at self.now i) table.old) }
    {
        if self.tokens.len() > FEW_WORDS {
            self.make_within::<TREE>(i, at, table)
        } else {
            self.make_within::<FEW_TREE>(i, at, table)
        }
    }

    // Writes the final tree of number i from a place on; the place after it. One without a switch stands as it is in
    // what is held.
    fn write_tree(&self, i: usize, at: usize, table: &mut [u64]) -> usize
        requires readied { IsReadied self.now }
        requires i_in_bounds { (i < length self.now.starts.now + length self.now.places.now) × (at + length (tree_at self.now i) ≤ 9223372036854775808) }
        ensures { (result ≡ at + length (tree_at self.now i)) × (table.new ≡ overlay at (tree_at self.now i) table.old) }
    {
        if i >= self.starts.len() {
            return self.make_tree(i, at, table);
        }
        let from = self.starts[i] as usize;
        let end = end_of(self.held, from).unwrap();
        if no_switch(&self.held[from..end]) {
            put(&self.held[from..end], at, table);
            return at + (end - from);
        }
        self.make_tree(i, at, table)
    }

    // Writes the rows of value i from a place on; the place after them.
    fn write_value(&self, row: u64, i: usize, at: usize, table: &mut [u64]) -> usize
        requires readied { IsReadied self.now }
        requires i_lt_results { i < self.now.results }
        requires i_bound { at + length (value_run row (tree_at self.now i)) ≤ 9223372036854775808 }
        ensures { (result ≡ at + length (value_run row (tree_at self.now i))) × (table.new ≡ overlay at (value_run row (tree_at self.now i)) table.old) }
    {
        put_word(row, at, table);
        self.write_tree(i, at + 1, table)
    }
}

// The positions of the statements in the order in which they are taken, in front of what was in `taken`: all of them,
// or Ring where some need each other.
pub fn order_stmts(
    tokens: &[u64],
    results: usize,
    first: u64,
    places: &[u64],
    held: &[u64],
    starts: &[u64],
    members: &[u64],
    ends: &[u64],
    numbers: &[u64],
    taken: &mut [u64],
) -> Result<(), OrderError>
    requires prepared { Prepared tokens.now results first places.now held.now starts.now members.now ends.now numbers.now }
    requires in_bounds { 2048 ≤ length taken.old }
    ensures { (result ≡ order_told (stmts_order tokens.now results first places.now numbers.now) (stmts_count tokens.now results first places.now numbers.now))
        × (taken.new ≡ stmts_order tokens.now results first places.now numbers.now
        ++ drop (length (stmts_order tokens.now results first places.now numbers.now)) taken.old) }
{
    let scope = Scope {
        tokens,
        results,
        first,
        places,
        held,
        starts,
        members,
        numbers,
    };
    scope.order_all(ends, taken)
}

// Writes the rows of the let of number p from a place on; the place after them.
pub fn write_let(
    tokens: &[u64],
    results: usize,
    first: u64,
    places: &[u64],
    held: &[u64],
    starts: &[u64],
    members: &[u64],
    numbers: &[u64],
    p: usize,
    at: usize,
    table: &mut [u64],
) -> usize
    requires readied { Readied tokens.now results first places.now held.now starts.now members.now numbers.now }
    requires p_bound { p < lets_count tokens.now results first places.now }
    requires p_bound_2 { at + length (let_run (first + p) (tree_run tokens.now results first places.now numbers.now (results + p))) ≤ 9223372036854775808 }
    ensures { (result ≡ at + length (let_run (first + p) (tree_run tokens.now results first places.now numbers.now (results + p))))
        × (table.new ≡ overlay at (let_run (first + p) (tree_run tokens.now results first places.now numbers.now (results + p))) table.old) }
{
    let scope = Scope {
        tokens,
        results,
        first,
        places,
        held,
        starts,
        members,
        numbers,
    };
    put_word(FIRST_LET + NEXT_NAME * (first + p as u64), at, table);
    scope.write_tree(results + p, at + 1, table)
}

// Writes the rows of all values from a place on, each after a row of the kind that is given; the place after them.
pub fn write_values(
    tokens: &[u64],
    results: usize,
    first: u64,
    places: &[u64],
    held: &[u64],
    starts: &[u64],
    members: &[u64],
    numbers: &[u64],
    row: u64,
    at: usize,
    table: &mut [u64],
) -> usize
    requires readied { Readied tokens.now results first places.now held.now starts.now members.now numbers.now }
    requires results_bound { at + length (values_runs tokens.now results first places.now numbers.now row results) ≤ 9223372036854775808 }
    ensures { (result ≡ at + length (values_runs tokens.now results first places.now numbers.now row results))
        × (table.new ≡ overlay at (values_runs tokens.now results first places.now numbers.now row results) table.old) }
{
    let scope = Scope {
        tokens,
        results,
        first,
        places,
        held,
        starts,
        members,
        numbers,
    };
    let mut to = at;
    for i in 0..results {
        to = scope.write_value(row, i, to, table);
    }
    to
}

// Writes the rows of the match of group g before its arms, from a place on, by the shorter array where it has room;
// the place after them.
pub fn write_match_head(
    held: &[u64],
    members: &[u64],
    ends: &[u64],
    numbers: &[u64],
    g: usize,
    at: usize,
    table: &mut [u64],
) -> usize
    requires grouped { Grouped held.now members.now ends.now numbers.now }
    requires g_in_bounds { g < length ends.now }
    requires g_bound { at + length (head_run held.now (place_groups held.now) numbers.now g) ≤ 9223372036854775808 }
    ensures { (result ≡ at + length (head_run held.now (place_groups held.now) numbers.now g))
        × (table.new ≡ overlay at (head_run held.now (place_groups held.now) numbers.now g) table.old) }
{
    let matches = Matches {
        held,
        members,
        ends,
        numbers,
    };
    if held.len() > FEW_WORDS {
        matches.head_within::<TREE>(g, at, table)
    } else {
        matches.head_within::<FEW_TREE>(g, at, table)
    }
}
