// The binding of one divisor's reciprocal as words (01, "Reciprocals"), made when it is needed: the words of `1 / d`,
// brought up to date with the reciprocals bound after it. The divisors stand in the words from before the first was
// bound.
ghost use Rattle.std.specs.Prelude.{◌≡◌, ◌++◌, ◌+◌, ◌-◌, ◌≤◌, ◌<◌, length, drop, T};
ghost use Rattle.words.specs.words.Words.{Complete};
ghost use Rattle.reciprocals.specs.divisors.Places.{Inside};
ghost use Rattle.reciprocals.specs.reciprocal.Bindings.{all_there, one_over, no_division_words, is_plain, whole_reciprocal, BoundSo};

use crate::divisors::count_equal;
use crate::settle::settle;
use words::copying::copy;
use words::layout::{DIV, KINDS, QUOTIENT};
use words::tokens::{end_of, tree_end};

// How many words `1 / d` is besides those of d.
const BESIDES: usize = 2;

// The word of the constant 1.
const ONE: u64 = 129;

// Whether a tree stands at each place.
pub fn all_there(base: &[u64], places: &[u64]) -> bool
    ensures { result ≡ all_there base.now places.now }
{
    places
        .iter()
        .all(|place| end_of(base, *place as usize).is_some())
}

// Writes `1 / d` to the front of out, for the tree d between two places.
fn write_quotient(base: &[u64], place: usize, end: usize, work: &mut [u64])
    requires place_le_end { (place ≤ end) × (end ≤ length base.now) }
    requires place_in_bounds { 2 + (end - place) ≤ length work.old }
    ensures { work.new ≡ one_over base.now place (end - place) ++ drop (2 + (end - place)) work.old }
{
    work[0] = QUOTIENT;
    work[1] = ONE;
    copy(&base[place..end], &mut work[BESIDES..]);
}

// Whether none of some words is a division's.
fn no_division(words: &[u64]) -> bool
    ensures { result ≡ no_division_words words.now }
{
    words.iter().all(|w| *w % KINDS != DIV)
}

// Whether `1 / d` stays as it is, for the tree d between two places: nearly always, since few divisors hold a division.
fn is_plain(base: &[u64], later: &[u64], place: usize, end: usize) -> bool
    requires complete { Complete base.now × Inside (length base.now) later.now }
    requires place_lt_end { (place < end) × (end ≤ length base.now) }
    ensures { result ≡ is_plain base.now later.now place (end - place) }
{
    no_division(&base[place..end]) && count_equal(base, later, place) == 0
}

// Writes the reciprocal of the divisor number j, which is bound under `__x(first + j)`, to the front of out; what is
// left after it there is free. That it can't be settled never comes up.
pub fn reciprocal(base: &[u64], places: &[u64], first: u64, j: usize, out: &mut [u64]) -> usize
    requires complete { Complete base.now × T (all_there base.now places.now) × (j < length places.now) }
    requires base_len_bound { (length base.now ≤ 1927) × (2 + length base.now ≤ length out.old) }
    requires first_bound { (first ≤ 4294967296) × (length places.now ≤ 4294967296) }
    ensures { BoundSo (whole_reciprocal base.now places.now first j) result out.new }
{
    let place = places[j] as usize;
    let end = tree_end(base, place);
    write_quotient(base, place, end, out);
    let n = BESIDES + (end - place);
    if is_plain(base, &places[j + 1..], place, end) {
        return n;
    }
    settle(base, places, j + 1, first, out, n).unwrap_or(n)
}
