// `count_divisors` of the source (01, "Reciprocals"): where the divisors stand among words of trees, in the order of
// their divisions, and those to bind: each divisor that is there twice and once outside arms, where its tree stands
// first, in text order, equal texts by the first division by each. Local arrays hold the places of all divisors, of
// those outside arms, and the marks.
ghost use Rattle.std.specs.Prelude.{◌≡◌, ◌++◌, ◌≤◌, ◌<◌, length, take, drop, get_or, T};
ghost use Rattle.words.specs.words.Words.{Complete};
ghost use Rattle.reciprocals.specs.divisors.Listing.{second_answer, all_places};
ghost use Rattle.spec_tree.specs.Bytes.{every};
ghost use Rattle.spec_tree.specs.Tree.{eq_tree};
ghost use Rattle.spec_tree.specs.Tokens.{name_in};
ghost use Rattle.spec_tree.specs.text.Text.{before};
ghost use Rattle.fmt.specs.checked.Check.{rows_in, word_ok};
ghost use Rattle.laws.specs.positions.Places.{numbered_at, count_places, text_at, insert_place, sort_places, divisors_to_bind};
ghost use Rattle.rounds.specs.choice.Leading.{HasMarks, Writable};
ghost use Rattle.reciprocals.specs.divisors.Places.{Inside, SizeThere, Sized, with_sizes, Listed, marked_second, outside_places, chosen_at, chosen_places};

use fmt::order::before_at;
use rounds::uses::mark_outside;
use words::layout::{DIV, KINDS};
use words::tokens::{end_of, same, tree_end};

// So many words at most, which the arrays hold.
const MOST_WORDS: usize = 1927;

// Few words.
const FEW_WORDS: usize = 256;

// Where the divisor of the division at p stands, if a division is there.
fn second_operand(tokens: &[u64], p: usize) -> Option<usize>
    requires { Complete tokens.now × (p < length tokens.now) }
    ensures { result ≡ second_answer tokens.now p }
{
    let w = tokens[p];
    if w % KINDS != DIV || w / KINDS < 2 {
        return None;
    }
    end_of(tokens, p + 1)
}

// Lists the places of all divisors and returns how many there are.
fn list(tokens: &[u64], places: &mut [u64]) -> usize
    requires { Complete tokens.now × (length tokens.now ≤ length places.old) }
    ensures { (result ≡ length (all_places tokens.now))
        × (places.new ≡ all_places tokens.now ++ drop (length (all_places tokens.now)) places.old) }
{
    let mut n = 0;
    for p in 0..tokens.len() {
        if let Some(second) = second_operand(tokens, p) {
            places[n] = second as u64;
            n += 1;
        }
    }
    n
}

// The same for a division at a marked place.
fn marked_divisor(tokens: &[u64], marks: &[u64], p: usize) -> Option<usize>
    requires { Complete tokens.now × (p < length tokens.now) × (length tokens.now ≤ length marks.now) }
    ensures { result ≡ marked_second tokens.now marks.now p }
{
    if marks[p] == 0 {
        None
    } else {
        second_operand(tokens, p)
    }
}

// Lists the divisors of the divisions at marked places and returns how many there are. `list` stays beside it, since it
// is asked before there are marks: where there are fewer than two divisions no array is needed.
fn list_marked(tokens: &[u64], scoped: bool, marks: &[u64], places: &mut [u64]) -> usize
    requires complete { Complete tokens.now × (length tokens.now ≤ length places.old) }
    requires has_marks { HasMarks tokens.now scoped marks.now }
    ensures { Listed (outside_places tokens.now scoped) places.old result places.new }
{
    let mut n = 0;
    for p in 0..tokens.len() {
        if let Some(second) = marked_divisor(tokens, marks, p) {
            places[n] = second as u64;
            n += 1;
        }
    }
    n
}

// Lists the divisors of the divisions outside arms and returns how many there are.
fn list_outside(tokens: &[u64], scoped: bool, marks: &mut [u64], places: &mut [u64]) -> usize
    requires complete { Complete tokens.now }
    requires tokens_in_bounds { (length tokens.now ≤ length marks.old) × (length tokens.now ≤ length places.old) }
    ensures { Listed (outside_places tokens.now scoped) places.old result places.new }
{
    // no word lacks an operand and there are as many marks, so the places are marked
    let _ = mark_outside(tokens, scoped, marks);
    list_marked(tokens, scoped, marks, places)
}

// Whether the trees at two places are equal.
fn equal_trees(tokens: &[u64], i: usize, j: usize) -> bool
    requires complete { Complete tokens.now }
    requires i_in_bounds { (i < length tokens.now) × (j < length tokens.now) }
    ensures { result ≡ eq_tree (numbered_at tokens.now i) (numbered_at tokens.now j) }
{
    same(tokens, i, j).unwrap_or(false)
}

// The same where the size of each stands at its place: trees of two sizes are not equal, and need not be walked.
fn equal_sized(tokens: &[u64], sizes: &[u64], i: usize, j: usize) -> bool
    requires complete { Complete tokens.now }
    requires i_in_bounds { (i < length tokens.now) × (j < length tokens.now) }
    requires size_there { SizeThere tokens.now sizes.now i × SizeThere tokens.now sizes.now j }
    ensures { result ≡ eq_tree (numbered_at tokens.now i) (numbered_at tokens.now j) }
{
    sizes[i] == sizes[j] && equal_trees(tokens, i, j)
}

// Puts the size of the tree at each of some places there.
fn put_sizes(tokens: &[u64], list: &[u64], sizes: &mut [u64])
    requires complete { Complete tokens.now × Inside (length tokens.now) list.now }
    requires tokens_in_bounds { length tokens.now ≤ length sizes.old }
    ensures { sizes.new ≡ with_sizes tokens.now list.now sizes.old }
{
    for place in list {
        let q = *place as usize;
        let end = tree_end(tokens, q);
        sizes[q] = (end - q) as u64;
    }
}

// How many of the places have the tree at q.
pub fn count_equal(tokens: &[u64], list: &[u64], q: usize) -> usize
    requires complete { Complete tokens.now × (q < length tokens.now) }
    requires inside { Inside (length tokens.now) list.now }
    ensures { result ≡ count_places tokens.now q list.now }
{
    let mut count = 0;
    for place in list {
        if equal_trees(tokens, *place as usize, q) {
            count += 1;
        }
    }
    count
}

// The same by sizes. The two are not one function of a test, whose contract would have to say of each place what each
// of them asks.
fn count_sized(tokens: &[u64], sizes: &[u64], list: &[u64], q: usize) -> usize
    requires complete { Complete tokens.now × (q < length tokens.now) }
    requires inside { Inside (length tokens.now) list.now }
    requires size_there { SizeThere tokens.now sizes.now q × Sized tokens.now sizes.now list.now }
    ensures { result ≡ count_places tokens.now q list.now }
{
    let mut count = 0;
    for place in list {
        if equal_sized(tokens, sizes, *place as usize, q) {
            count += 1;
        }
    }
    count
}

// Whether the divisor at i of all is to be bound: its tree stands first there, twice among all, and once among those
// outside arms.
fn is_chosen(tokens: &[u64], sizes: &[u64], all: &[u64], outside: &[u64], i: usize) -> bool
    requires complete { Complete tokens.now × (i < length all.now) }
    requires inside { Inside (length tokens.now) all.now × Inside (length tokens.now) outside.now }
    requires sized { Sized tokens.now sizes.now all.now × Sized tokens.now sizes.now outside.now }
    ensures { result ≡ chosen_at tokens.now all.now outside.now i }
{
    let q = all[i] as usize;
    count_sized(tokens, sizes, &all[..i], q) == 0
        && count_sized(tokens, sizes, all, q) >= 2
        && count_sized(tokens, sizes, outside, q) >= 1
}

// Lists those to be bound, in the order of their first divisions.
fn choose(tokens: &[u64], sizes: &[u64], all: &[u64], outside: &[u64], places: &mut [u64]) -> usize
    requires complete { Complete tokens.now × (length all.now ≤ length places.old) }
    requires inside { Inside (length tokens.now) all.now × Inside (length tokens.now) outside.now }
    requires sized { Sized tokens.now sizes.now all.now × Sized tokens.now sizes.now outside.now }
    ensures { Listed (chosen_places tokens.now all.now outside.now) places.old result places.new }
{
    let mut n = 0;
    for i in 0..all.len() {
        if is_chosen(tokens, sizes, all, outside, i) {
            places[n] = all[i];
            n += 1;
        }
    }
    n
}

// The same from the words, by way of three tables. Once the places outside arms are listed, the marks are free for the
// sizes.
fn gather(
    tokens: &[u64],
    scoped: bool,
    all: &mut [u64],
    marks: &mut [u64],
    outside: &mut [u64],
    places: &mut [u64],
) -> usize
    requires complete { Complete tokens.now × (length tokens.now ≤ length places.old) }
    requires tokens_in_bounds { (length tokens.now ≤ length all.old) × (length tokens.now ≤ length marks.old) × (length tokens.now ≤ length outside.old) }
    ensures { Listed (chosen_places tokens.now (all_places tokens.now) (outside_places tokens.now scoped)) places.old result places.new }
{
    let n = list(tokens, all);
    let m = list_outside(tokens, scoped, marks, outside);
    put_sizes(tokens, &all[..n], marks);
    put_sizes(tokens, &outside[..m], marks);
    choose(tokens, marks, &all[..n], &outside[..m], places)
}

// The same in tables of its own, for at most N words.
fn gather_within<const N: usize>(tokens: &[u64], scoped: bool, places: &mut [u64]) -> usize
    requires complete { Complete tokens.now × (length tokens.now ≤ length places.old) }
    requires tokens_len_bound { (length tokens.now ≤ N) × (N ≤ 1927) }
    ensures { Listed (chosen_places tokens.now (all_places tokens.now) (outside_places tokens.now scoped)) places.old result places.new }
{
    let mut all = [0u64; N];
    let mut marks = [0u64; N];
    let mut outside = [0u64; N];
    gather(tokens, scoped, &mut all, &mut marks, &mut outside, places)
}

// The same, for few words in small tables, so that most lists needn't clear the large ones.
fn list_chosen(tokens: &[u64], scoped: bool, places: &mut [u64]) -> usize
    requires complete { Complete tokens.now × (length tokens.now ≤ length places.old) }
    requires tokens_len_bound { length tokens.now ≤ 1927 }
    ensures { Listed (chosen_places tokens.now (all_places tokens.now) (outside_places tokens.now scoped)) places.old result places.new }
{
    if tokens.len() <= FEW_WORDS {
        gather_within::<FEW_WORDS>(tokens, scoped, places)
    } else {
        gather_within::<MOST_WORDS>(tokens, scoped, places)
    }
}

// Moves the first place past those after it, which are in text order, whose texts come before its own.
fn insert_first(rows: &[u64], tokens: &[u64], text: &mut [u8], places: &mut [u64])
    requires complete { Complete tokens.now × (0 < length places.old) }
    requires inside { Inside (length tokens.now) places.old }
    requires writable { Writable rows.now tokens.now (length text.old) }
    ensures { places.new ≡ insert_place tokens.now (name_in (rows_in rows.now)) (get_or places.old 0 0) (drop 1 places.old) }
{
    for j in 0..places.len() - 1 {
        let q = places[j] as usize;
        let next = places[j + 1] as usize;
        if !before_at(rows, tokens, next, q, text) {
            return;
        }
        places.swap(j, j + 1);
    }
}

// In text order, equal texts as they stood: from the last on, each is put among those after it. By hand, since the
// library's sort of a slice allocates, or asks for an order that needs no text lent to write in.
fn sort(rows: &[u64], tokens: &[u64], text: &mut [u8], places: &mut [u64])
    requires complete { Complete tokens.now }
    requires inside { Inside (length tokens.now) places.old }
    requires writable { Writable rows.now tokens.now (length text.old) }
    ensures { places.new ≡ sort_places tokens.now (name_in (rows_in rows.now)) places.old }
{
    for i in (0..places.len()).rev() {
        insert_first(rows, tokens, text, &mut places[i..]);
    }
}

// The places of the divisors to bind, in front. The text is worked in; what is left there and after the places is free.
// Where there are fewer than two divisions no array is needed.
pub fn divisors_to_bind(
    rows: &[u64],
    tokens: &[u64],
    scoped: bool,
    text: &mut [u8],
    places: &mut [u64],
) -> usize
    requires complete { Complete tokens.now × T (every (word_ok (rows_in rows.now)) tokens.now) }
    requires tokens_len_bound { (length tokens.now ≤ 1927) × (length tokens.now ≤ length places.old) × (131072 ≤ length text.old) }
    ensures { (take result places.new ≡ divisors_to_bind tokens.now (name_in (rows_in rows.now)) scoped) × (result ≤ length places.new) }
{
    if list(tokens, places) < 2 {
        return 0;
    }
    let n = list_chosen(tokens, scoped, places);
    sort(rows, tokens, text, &mut places[..n]);
    n
}
