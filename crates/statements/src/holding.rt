// What a scope holds as words, for its switches to be sought in (01, "Reciprocals", "Scoped fusion"): its trees
// brought up to date with all reciprocals, and those reciprocals that hold a switch. The divisors stand in the words
// from before the first was bound.
ghost use Rattle.std.specs.Prelude.{◌≡◌, true, ◌+◌, ◌≤◌, ◌<◌, length};
ghost use Rattle.reciprocals.specs.final.Ready.{Stands};
ghost use Rattle.fusion.specs.Switchless.{no_switch_words};
ghost use Rattle.fusion.specs.place.Overlay.{overlay};
ghost use Rattle.fusion.specs.place.Parts.{words_held};
ghost use Rattle.statements.specs.holding.Holding.{settled_held, reciprocals_held, reciprocal_words, reciprocal_held, whole_there, room_to_hold, Ready, holding};

use fusion::switches::is_switch;
use fusion::tables::put;
use reciprocals::reciprocal::{all_there, reciprocal};
use reciprocals::settle::settle;
use words::tokens::count_trees;

// The most words that are taken.
const AREA: usize = 1927;

// A reciprocal is at most two words more than its divisor.
const ROOM: usize = 1929;

// Few words, and what a reciprocal among them takes, so that most scopes needn't clear the longer array.
const FEW: usize = 128;

const FEW_ROOM: usize = 130;

// Where the first number and the number of places are at most this, every name has a word.
const NUMBERS: u64 = 4294967296;

// Why what a scope holds isn't held.
#[derive(Clone, Copy, Debug, PartialEq, Eq)]
pub enum HoldError {
    // More words than are lent. Those past the end are dropped.
    TooMany,
    // A word lacks operands, or a divisor isn't there.
    Broken,
    // Too many words, places or numbers, or fewer words lent than there are.
    NoRoom,
}

// Whether none of some words is a switch's that has operands.
pub fn no_switch(words: &[u64]) -> bool
    ensures { result ≡ no_switch_words words.now }
{
    words.iter().all(|w| !is_switch(*w))
}

// The reciprocal of number j.
fn take_reciprocal(tokens: &[u64], places: &[u64], first: u64, j: usize, one: &mut [u64]) -> usize
    requires ready { Ready tokens.now places.now first }
    requires j_in_bounds { (j < length places.now) × (length tokens.now + 2 ≤ length one.old) }
    ensures { Stands (reciprocal_words tokens.now first places.now j) one.new result }
{
    reciprocal(tokens, places, first, j, one)
}

// Writes the reciprocal of number j from place n on, if it holds a switch, and answers the place after it. Words past
// the end are dropped.
fn hold_with(
    tokens: &[u64],
    places: &[u64],
    first: u64,
    j: usize,
    one: &mut [u64],
    work: &mut [u64],
    n: usize,
) -> usize
    requires ready { Ready tokens.now places.now first }
    requires j_in_bounds { (j < length places.now) × (n ≤ 8796093022208) }
    requires tokens_in_bounds { length tokens.now + 2 ≤ length one.old }
    ensures value { result ≡ n + length (reciprocal_held tokens.now first places.now j) }
    ensures work_after { work.new ≡ overlay n (reciprocal_held tokens.now first places.now j) work.old }
{
    let m = take_reciprocal(tokens, places, first, j, one);
    if no_switch(&one[..m]) {
        return n;
    }
    put(&one[..m], n, work);
    n + m
}

// The same in an array of N words.
fn hold_within<const N: usize>(
    tokens: &[u64],
    places: &[u64],
    first: u64,
    j: usize,
    work: &mut [u64],
    n: usize,
) -> usize
    requires ready { Ready tokens.now places.now first }
    requires j_in_bounds { (j < length places.now) × (n ≤ 8796093022208) }
    requires tokens_in_bounds { length tokens.now + 2 ≤ N }
    requires array_bound { N ≤ 1929 }
    ensures value { result ≡ n + length (reciprocal_held tokens.now first places.now j) }
    ensures work_after { work.new ≡ overlay n (reciprocal_held tokens.now first places.now j) work.old }
{
    let mut one = [0u64; N];
    hold_with(tokens, places, first, j, &mut one, work, n)
}

// The same in the shorter array where it has room.
fn hold_one(
    tokens: &[u64],
    places: &[u64],
    first: u64,
    j: usize,
    work: &mut [u64],
    n: usize,
) -> usize
    requires ready { Ready tokens.now places.now first }
    requires j_in_bounds { (j < length places.now) × (n ≤ 8796093022208) }
    ensures value { result ≡ n + length (reciprocal_held tokens.now first places.now j) }
    ensures work_after { work.new ≡ overlay n (reciprocal_held tokens.now first places.now j) work.old }
{
    if tokens.len() > FEW {
        hold_within::<ROOM>(tokens, places, first, j, work, n)
    } else {
        hold_within::<FEW_ROOM>(tokens, places, first, j, work, n)
    }
}

// Writes all reciprocals that hold a switch from place `len` on.
fn hold_reciprocals(
    tokens: &[u64],
    places: &[u64],
    first: u64,
    work: &mut [u64],
    len: usize,
) -> usize
    requires { Ready tokens.now places.now first × (len ≤ 1927) }
    ensures value { result ≡ len + length (reciprocals_held tokens.now first places.now 0) }
    ensures work_after { work.new ≡ overlay len (reciprocals_held tokens.now first places.now 0) work.old }
{
    let mut n = len;
    for j in 0..places.len() {
        n = hold_one(tokens, places, first, j, work, n);
    }
    n
}

// Settles all trees in a copy; without a divisor they stay as they are. They can always be settled.
fn settle_all(tokens: &[u64], places: &[u64], first: u64, work: &mut [u64]) -> usize
    requires { Ready tokens.now places.now first × (length tokens.now ≤ length work.old) }
    ensures value { result ≡ length (settled_held tokens.now first places.now) }
    ensures work_after { work.new ≡ overlay 0 (settled_held tokens.now first places.now) (overlay 0 tokens.now work.old) }
{
    put(tokens, 0, work);
    if places.is_empty() {
        return tokens.len();
    }
    settle(tokens, places, 0, first, work, tokens.len()).unwrap()
}

// Writes what is held to the front of work, and answers how many words it is. Those past the end are dropped.
fn hold_all(tokens: &[u64], places: &[u64], first: u64, work: &mut [u64]) -> usize
    requires { Ready tokens.now places.now first × (length tokens.now ≤ length work.old) }
    ensures value { result ≡ length (words_held tokens.now first places.now) }
    ensures work_after { work.new ≡ overlay 0 (words_held tokens.now first places.now) (overlay 0 tokens.now work.old) }
{
    let n = settle_all(tokens, places, first, work);
    hold_reciprocals(tokens, places, first, work, n)
}

// Whether no word lacks an operand, and a tree stands at each place.
fn whole(tokens: &[u64], places: &[u64]) -> bool
    ensures { result ≡ whole_there tokens.now places.now }
{
    count_trees(tokens).is_some() && all_there(tokens, places)
}

// Whether there is room to hold them. With as many words lent as there are, the settled trees always have room.
fn room_for(words: usize, places: usize, first: u64, lent: usize) -> bool
    ensures { result ≡ room_to_hold words places first lent }
{
    words <= AREA && first <= NUMBERS && places as u64 <= NUMBERS && lent >= words
}

// Writes what a scope holds to the front of held: the divisors to bind stand at the places, and `first` is the number
// of the first one's reciprocal.
pub fn hold(
    tokens: &[u64],
    places: &[u64],
    first: u64,
    held: &mut [u64],
) -> Result<usize, HoldError>
    ensures { (result ≡ (holding tokens.now places.now first held.old).answer)
        × (held.new ≡ (holding tokens.now places.now first held.old).out) }
{
    if !whole(tokens, places) {
        return Err(HoldError::Broken);
    }
    if !room_for(tokens.len(), places.len(), first, held.len()) {
        return Err(HoldError::NoRoom);
    }
    let n = hold_all(tokens, places, first, held);
    if n > held.len() {
        return Err(HoldError::TooMany);
    }
    Ok(n)
}
