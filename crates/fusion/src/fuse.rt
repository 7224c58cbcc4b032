// Trees brought up to date with the matches made of their switches (01, "Scoped fusion"): one member after another is replaced in them by its name. The members
// stand in the words in which the switches were found, so a member is sought as it was when collected.
ghost use Rattle.std.specs.Prelude.{◌≡◌, true, ◌≤◌, length, take};
ghost use Rattle.spec_tree.specs.Tokens.{kind_of};
ghost use Rattle.words.specs.words.Words.{name_of, Complete};
ghost use Rattle.fusion.specs.Words.{fuse_step, fused_words};
ghost use Rattle.fusion.specs.fuse.Answers.{stepped_answer, Front, all_small, fusing};

use crate::tables::fit;
use replace::outside::replace_outside_arms;
use words::copying::copy;
use words::fault::Fault;
use words::layout::{MATCH_NAME, NEXT_NAME};
use words::tokens::{count_trees, end_of};

// The most words that can be fused.
const AREA: usize = 1929;

// Most trees are no more words than this, so that most needn't clear long areas.
const FEW: usize = 128;

// Replaces one member in the first `len` words of `work`.
fn step(
    base: &[u64],
    place: usize,
    name: u64,
    work: &mut [u64],
    len: usize,
    spare: &mut [u64],
) -> Option<usize>
    requires len_in_bounds { (len ≤ length work.old) × Complete (take len work.old) }
    requires name_value { (kind_of name ≡ 0) × (length work.old ≤ length spare.old) }
    ensures value { result ≡ stepped_answer (fuse_step base.now place (name_of name) (take len work.old)) }
    ensures front { Front (fuse_step base.now place (name_of name) (take len work.old)) work.new }
{
    let end = end_of(base, place)?;
    let n = replace_outside_arms(&work[..len], &base[place..end], name, spare).ok()?;
    copy(&spare[..n], work);
    Some(n)
}

// Replaces the members one after another.
fn steps(
    base: &[u64],
    places: &[u64],
    numbers: &[u64],
    work: &mut [u64],
    len: usize,
    spare: &mut [u64],
) -> Option<usize>
    requires len_in_bounds { (len ≤ length work.old) × Complete (take len work.old) }
    requires places_in_bounds { (length places.now ≤ length numbers.now) × (all_small (take (length places.now) numbers.now) ≡ true) }
    requires work_in_bounds { length work.old ≤ length spare.old }
    ensures value { result ≡ stepped_answer (fused_words base.now places.now numbers.now (take len work.old)) }
    ensures front { Front (fused_words base.now places.now numbers.now (take len work.old)) work.new }
{
    let mut n = len;
    for k in 0..places.len() {
        let name = MATCH_NAME + NEXT_NAME * numbers[k];
        n = step(base, places[k] as usize, name, work, n, spare)?;
    }
    Some(n)
}

// Fuses the first `len` words of tokens, which are there and have room, in two areas: nothing is written unless all members are there.
fn fuse_in(
    base: &[u64],
    places: &[u64],
    numbers: &[u64],
    tokens: &mut [u64],
    len: usize,
    work: &mut [u64],
    spare: &mut [u64],
) -> Result<usize, Fault>
    requires len_in_bounds { (len ≤ length tokens.old) × Complete (take len tokens.old) × (length places.now ≤ length numbers.now) }
    requires len_bound { (len ≤ 1929) × (all_small (take (length places.now) numbers.now) ≡ true) }
    requires len_in_bounds_2 { (len ≤ length work.old) × (length work.old ≤ length spare.old) }
    ensures { (result ≡ (fusing base.now places.now numbers.now tokens.old len).answer)
        × (tokens.new ≡ (fusing base.now places.now numbers.now tokens.old len).out) }
{
    copy(&tokens[..len], work);
    let n = steps(base, places, numbers, work, len, spare).ok_or(Fault::Broken)?;
    copy(&work[..n], tokens);
    Ok(n)
}

// The same in areas of its own, of N words.
fn fuse_within<const N: usize>(
    base: &[u64],
    places: &[u64],
    numbers: &[u64],
    tokens: &mut [u64],
    len: usize,
) -> Result<usize, Fault>
    requires len_in_bounds { (len ≤ length tokens.old) × Complete (take len tokens.old) × (length places.now ≤ length numbers.now) }
    requires len_bound { (len ≤ N) × (len ≤ 1929) × (all_small (take (length places.now) numbers.now) ≡ true) }
    requires area_bound { N ≤ 1929 }
    ensures { (result ≡ (fusing base.now places.now numbers.now tokens.old len).answer)
        × (tokens.new ≡ (fusing base.now places.now numbers.now tokens.old len).out) }
{
    let mut work = [0u64; N];
    let mut spare = [0u64; N];
    fuse_in(base, places, numbers, tokens, len, &mut work, &mut spare)
}

// Fuses the first `len` words of tokens: the members at the places are replaced in order, each by `__mN` with the number beside its place.
pub fn fuse(
    base: &[u64],
    places: &[u64],
    numbers: &[u64],
    tokens: &mut [u64],
    len: usize,
) -> Result<usize, Fault>
    ensures { (result ≡ (fusing base.now places.now numbers.now tokens.old len).answer)
        × (tokens.new ≡ (fusing base.now places.now numbers.now tokens.old len).out) }
{
    if len > tokens.len() || count_trees(&tokens[..len]).is_none() || places.len() > numbers.len() {
        return Err(Fault::Broken);
    }
    if len > AREA || !fit(&numbers[..places.len()]) {
        return Err(Fault::NoRoom);
    }
    if len <= FEW {
        fuse_within::<FEW>(base, places, numbers, tokens, len)
    } else {
        fuse_within::<AREA>(base, places, numbers, tokens, len)
    }
}
