// Trees brought up to date with the reciprocals bound after them (01, "Reciprocals"): each later divisor in turn is
// replaced in them by the name of its reciprocal. The divisors stand in the words from before the first was bound, so a
// reciprocal needs no tree of its own: it is made from its divisor when it is needed.
ghost use Rattle.std.specs.Prelude.{◌≡◌, ◌+◌, ◌≤◌, ◌<◌, length, take, drop};
ghost use Rattle.spec_tree.specs.Tokens.{kind_of};
ghost use Rattle.words.specs.words.Words.{name_of, Complete};
ghost use Rattle.reciprocals.specs.settle.Steps.{stand_among, step_words, settled_words};
ghost use Rattle.reciprocals.specs.settle.Answers.{stepped_answer, Front, settling};

use replace::divisor::replace_divisor;
use words::copying::copy;
use words::fault::Fault;
use words::layout::{LET_NAME, NEXT_NAME};
use words::tokens::{count_trees, end_of};

// The most words that can be settled.
const AREA: usize = 1929;

// Few words.
const FEW: usize = 256;

// Where the first number and the number of places are at most this, every name has a word.
const NUMBERS: u64 = 4294967296;

// Whether the words of a divisor stand among some words: where they don't there is nothing to replace.
fn stand_among(divisor: &[u64], words: &[u64]) -> bool
    requires { 0 < length divisor.now }
    ensures { result ≡ stand_among divisor.now words.now }
{
    let n = divisor.len();
    if words.len() < n {
        return false;
    }
    // `==` tells by the first word, without a call, that most places have another tree
    for i in 0..words.len() - n + 1 {
        if divisor == &words[i..i + n] {
            return true;
        }
    }
    false
}

// Replaces one divisor in the first `len` words of `work`, which are as many as it answers then: None where no divisor
// is there.
fn step(
    base: &[u64],
    place: usize,
    name: u64,
    work: &mut [u64],
    len: usize,
    spare: &mut [u64],
) -> Option<usize>
    requires len_in_bounds { (len ≤ length work.old) × Complete (take len work.old) }
    requires name_value { (kind_of name ≡ 0) × (length work.old ≤ length spare.old) }
    ensures value { result ≡ stepped_answer (step_words base.now place (name_of name) (take len work.old)) }
    ensures front { Front (step_words base.now place (name_of name) (take len work.old)) work.new }
{
    let end = end_of(base, place)?;
    let divisor = &base[place..end];
    if !stand_among(divisor, &work[..len]) {
        return Some(len);
    }
    let n = replace_divisor(&work[..len], divisor, name, spare).ok()?;
    copy(&spare[..n], work);
    Some(n)
}

// Replaces the divisors from number `from` on, one after another.
fn steps(
    base: &[u64],
    places: &[u64],
    from: usize,
    first: u64,
    work: &mut [u64],
    len: usize,
    spare: &mut [u64],
) -> Option<usize>
    requires len_in_bounds { (len ≤ length work.old) × Complete (take len work.old) }
    requires first_bound { (first ≤ 4294967296) × (length places.now ≤ 4294967296) }
    requires work_in_bounds { length work.old ≤ length spare.old }
    ensures value { result ≡ stepped_answer (settled_words base.now (drop from places.now) (first + from) (take len work.old)) }
    ensures front { Front (settled_words base.now (drop from places.now) (first + from) (take len work.old)) work.new }
{
    let mut n = len;
    for k in from..places.len() {
        let name = LET_NAME + NEXT_NAME * (first + k as u64);
        n = step(base, places[k] as usize, name, work, n, spare)?;
    }
    Some(n)
}

// The same in place, by way of two areas.
fn settle_in(
    base: &[u64],
    places: &[u64],
    from: usize,
    first: u64,
    tokens: &mut [u64],
    len: usize,
    work: &mut [u64],
    spare: &mut [u64],
) -> Result<usize, Fault>
    requires len_in_bounds { (len ≤ length tokens.old) × Complete (take len tokens.old) }
    requires len_bound { (len ≤ 1929) × (first ≤ 4294967296) × (length places.now ≤ 4294967296) }
    requires len_in_bounds_2 { (len ≤ length work.old) × (length work.old ≤ length spare.old) }
    ensures { (result ≡ (settling base.now places.now from first tokens.old len).answer)
        × (tokens.new ≡ (settling base.now places.now from first tokens.old len).out) }
{
    copy(&tokens[..len], work);
    let n = steps(base, places, from, first, work, len, spare).ok_or(Fault::Broken)?;
    copy(&work[..n], tokens);
    Ok(n)
}

// The same by way of two areas of its own, for at most N words.
fn settle_within<const N: usize>(
    base: &[u64],
    places: &[u64],
    from: usize,
    first: u64,
    tokens: &mut [u64],
    len: usize,
) -> Result<usize, Fault>
    requires len_in_bounds { (len ≤ length tokens.old) × Complete (take len tokens.old) }
    requires len_bound { (len ≤ N) × (N ≤ 1929) × (first ≤ 4294967296) × (length places.now ≤ 4294967296) }
    ensures { (result ≡ (settling base.now places.now from first tokens.old len).answer)
        × (tokens.new ≡ (settling base.now places.now from first tokens.old len).out) }
{
    let mut work = [0u64; N];
    let mut spare = [0u64; N];
    settle_in(
        base, places, from, first, tokens, len, &mut work, &mut spare,
    )
}

// Settles the first `len` words of tokens: the divisors at the places from number `from` on are replaced in order, the
// divisor at place k by `__x(first + k)`. Broken means that a word lacks operands, that there are fewer words than
// said, or that a divisor isn't there, and NoRoom too many words, places or numbers. Few words have small areas, so
// that most lists needn't clear the large ones.
pub fn settle(
    base: &[u64],
    places: &[u64],
    from: usize,
    first: u64,
    tokens: &mut [u64],
    len: usize,
) -> Result<usize, Fault>
    ensures { (result ≡ (settling base.now places.now from first tokens.old len).answer)
        × (tokens.new ≡ (settling base.now places.now from first tokens.old len).out) }
{
    if len > tokens.len() {
        return Err(Fault::Broken);
    }
    count_trees(&tokens[..len]).ok_or(Fault::Broken)?;
    if len > AREA || first > NUMBERS || places.len() as u64 > NUMBERS {
        return Err(Fault::NoRoom);
    }
    if from >= places.len() {
        return Ok(len);
    }
    if len <= FEW {
        settle_within::<FEW>(base, places, from, first, tokens, len)
    } else {
        settle_within::<AREA>(base, places, from, first, tokens, len)
    }
}
