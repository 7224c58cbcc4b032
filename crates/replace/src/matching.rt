// The factors of a product taken out of another's (01, "Rewriting": each target factor is found, the first equal
// remaining one is removed, the symbol joins the end), again and again. A factor of the product is a place among its
// words, and the symbol a place past their end; the factors taken out are runs of other words.
ghost use Rattle.std.specs.Prelude.{◌≡◌, ◌+◌, ◌-◌, ◌<◌, ◌≤◌, ◌⊎◌, ◌++◌, length, take, drop};
ghost use Rattle.words.specs.words.Words.{begins_with};
ghost use Rattle.replace.specs.matching.Matching.{is_passed, factor_runs, run_end, words_at, remove_runs, names_after};
ghost use Rattle.replace.specs.matching.Answers.{Seeks, Removes, Lacks, Takes};

use words::layout::{CONST, KINDS, MUL, NEG};
use words::tokens::end_of;
use words::words::starts_with;

// How many places are left in front after factors were taken out, and how often all of them were there.
#[derive(Clone, Copy, Debug, PartialEq, Eq)]
pub struct Taken {
    pub left: usize,
    pub times: usize,
}

// Whether a word of a product is passed through: a Mul, a Neg or a constant. Any other starts a factor.
pub fn is_passed(w: u64) -> bool
    ensures { result ≡ is_passed w }
{
    let kind = w % KINDS;
    kind == MUL || kind == NEG || kind == CONST
}

// The place of the first factor from `from` on, or the end.
fn next_factor(part: &[u64], from: usize) -> usize
    requires { from ≤ length part.now }
    ensures { Seeks part.now from result }
{
    for q in from..part.len() {
        if !is_passed(part[q]) {
            return q;
        }
    }
    part.len()
}

// The place after the tree at a place, or the end where it lacks operands.
fn end_from(part: &[u64], at: usize) -> usize
    requires { at < length part.now }
    ensures { (result ≡ run_end part.now at) × (at < result) × (result ≤ length part.now) }
{
    end_of(part, at).unwrap_or(part.len())
}

// Whether the words from a place on begin with a run. A place past the end stands for the name.
fn stands_at(tokens: &[u64], name: u64, place: u64, run: &[u64]) -> bool
    ensures { result ≡ begins_with (words_at tokens.now name place) run.now }
{
    let from = place as usize;
    if from < tokens.len() {
        starts_with(&tokens[from..], run)
    } else {
        starts_with(&[name], run)
    }
}

// Moves the places from j + 1 up to n down by one. A loop and no `copy_within`, here and below, for the reason that is told
// where words are copied.
fn close_gap(places: &mut [u64], j: usize, n: usize)
    requires { (j < n) × (n ≤ length places.old) }
    ensures { (take (n - 1) places.new ≡ take j places.old ++ drop (j + 1) (take n places.old)) × (drop n places.new ≡ drop n places.old) }
{
    for k in j..n - 1 {
        places[k] = places[k + 1];
    }
}

// Removes for each factor of `part`, in order, the first of the `count` places where an equal tree stands, and tells
// how many are left. The search is left where one is missing.
fn remove_each(
    tokens: &[u64],
    part: &[u64],
    name: u64,
    places: &mut [u64],
    count: usize,
) -> Option<usize>
    requires { count ≤ length places.old }
    ensures { Removes (remove_runs (words_at tokens.now name) (factor_runs part.now) (take count places.old)) places.new result × (drop count places.new ≡ drop count places.old) }
{
    let mut left = count;
    let mut q = next_factor(part, 0);
    // A loop, since each factor tells where the next is sought; it is left by its label where one is missing.
    'factors: loop {
        if part.len() <= q {
            return Some(left);
        }
        let end = end_from(part, q);
        for i in 0..left {
            if stands_at(tokens, name, places[i], &part[q..end]) {
                close_gap(places, i, left);
                left -= 1;
                q = next_factor(part, end);
                continue 'factors;
            }
        }
        break 'factors;
    }
    None
}

// Whether a factor of `part` stands at none of some places: then they aren't all there, and nothing need be removed to
// see it.
fn lacks_factor(tokens: &[u64], part: &[u64], name: u64, places: &[u64]) -> bool
    ensures { Lacks (remove_runs (words_at tokens.now name) (factor_runs part.now) places.now) result }
{
    let mut q = next_factor(part, 0);
    // A while, since each factor tells where the next is sought.
    while q < part.len() {
        let end = end_from(part, q);
        let run = &part[q..end];
        if !places
            .iter()
            .any(|place| stands_at(tokens, name, *place, run))
        {
            return true;
        }
        q = next_factor(part, end);
    }
    false
}

// Copies n places from one place to another.
fn copy_places(places: &mut [u64], from: usize, to: usize, n: usize)
    requires n_in_bounds { (from + n ≤ length places.old) × (to + n ≤ length places.old) }
    requires fact { (from + n ≤ to) ⊎ (to + n ≤ from) }
    ensures { (take n (drop to places.new) ≡ take n (drop from places.old)) × (take to places.new ≡ take to places.old) }
{
    for k in 0..n {
        places[to + k] = places[from + k];
    }
}

// Takes the factors of `part` out of the first `count` places as often as all of them are there, and puts the name's
// place at the end each time. The places are kept behind themselves until then. Twice `count` times is enough: each
// time there is a factor less, or one that isn't the name. None where fewer than twice as many places are lent.
pub fn take_out(
    tokens: &[u64],
    part: &[u64],
    name: u64,
    places: &mut [u64],
    count: usize,
) -> Option<Taken>
    ensures { Takes tokens.now part.now name places.old count places.new result }
{
    if places.len() / 2 < count {
        return None;
    }
    let mut left = count;
    if next_factor(part, 0) == part.len() {
        return Some(Taken { left, times: 0 });
    }
    for times in 0..2 * count {
        if lacks_factor(tokens, part, name, &places[..left]) {
            return Some(Taken { left, times });
        }
        copy_places(places, 0, left, left);
        let Some(n) = remove_each(tokens, part, name, places, left) else {
            copy_places(places, left, 0, left);
            return Some(Taken { left, times });
        };
        places[n] = tokens.len() as u64;
        left = n + 1;
    }
    Some(Taken {
        left,
        times: 2 * count,
    })
}

// How many of the places at the end are the name's: those from `limit` on.
pub fn names_at_end(limit: u64, places: &[u64]) -> usize
    ensures { result ≡ names_after limit places.now }
{
    for k in (0..places.len()).rev() {
        if places[k] < limit {
            return places.len() - 1 - k;
        }
    }
    places.len()
}
