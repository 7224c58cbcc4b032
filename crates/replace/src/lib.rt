// `replace` of the source (01, "Rewriting"), on words of trees, from one slice to another: an equal node becomes the
// new symbol, and in a Mul the target's factors do, as often as they are all there. Such a product is written once: its
// coefficient, its signs, the factors that there are then, each rewritten by itself, and the symbols at their end.
#![tactic(auto)]

mod coefficient;
pub mod divisor;
mod factors;
mod matching;
pub mod outside;
mod replaceable;
pub mod unchanged;

ghost use Rattle.std.specs.Prelude.{◌≡◌, ◌+◌, ◌-◌, ◌*◌, ◌^◌, ◌<◌, ◌≤◌, true, ◌++◌, length, take, drop, slice_index};
ghost use Rattle.std.proofs.Math.Option.{some};
ghost use Rattle.spec_tree.specs.Tokens.{kind_of, trees_in, run_at};
ghost use Rattle.spec_rewrite.specs.Rewrite.{flatten_mul_factors};
ghost use Rattle.replace.specs.declared.ReplaceError.TheVariants.{Refused};
ghost use Rattle.refusal.specs.declared.Refusal.TheVariants.{BadCoefficient};
ghost use Rattle.words.specs.words.Words.{tree_of, name_of};
ghost use Rattle.replace.specs.closed.Closed.{by_factors, lone, endless};
ghost use Rattle.replace.specs.replacing.Replacing.{replaceable, repeated, head_words};
ghost use Rattle.replace.specs.replacing.Deciding.{Trees, Target, is_plain, Plain, Match, ProductFirst, rewritten_words, product_out};
ghost use Rattle.replace.specs.Answers.{by_fault, FlatFirst, Decides, Writes, sought_as, replaced_by, replacement, Leaves, scratch_short, short_of_room};

use crate::coefficient::{constant_of, is_one};
use crate::factors::{Passed, Product, flatten_mul_factors, flatten_tree};
use crate::matching::{is_passed, names_at_end, take_out};
use crate::replaceable::are_formed;
use refusal::Refusal;
use words::copying::copy;
use words::fault::Fault;
use words::layout::{CONST, KINDS, MUL, PRODUCT, SYM};
use words::tokens::tree_end;
use words::words::{check, starts_with};

// The words of a Neg and of a Mul.
const MINUS: u64 = 66;

// The codes of the constants 1 and -1.
const ONE: u64 = 2;

const MINUS_ONE: u64 = 1;

// The coefficient of a product to be rebuilt is no constant.
#[derive(Clone, Copy, Debug, PartialEq, Eq)]
pub struct NotConstant;

impl From<NotConstant> for Refusal {
    ghost from_gives = { λ _ r. r ≡ BadCoefficient };

    fn from(_: NotConstant) -> Refusal {
        Refusal::BadCoefficient
    }
}

// Why trees are not rewritten.
#[derive(Clone, Copy, Debug, PartialEq, Eq)]
pub enum ReplaceError {
    // The coefficient of a product to be rebuilt is no constant. The trees are written as they were.
    Refused,
    // The words aren't trees formed as 01 has them, the target isn't one tree, the name isn't a symbol's word, or
    // replacing would never end: the target is a product with coefficient 1 that has no factor, or the name alone.
    Broken,
    // Fewer words of `out` than there are tokens, fewer than twice as many of `places`, or fewer than the target has.
    NoRoom,
}

impl From<NotConstant> for ReplaceError {
    ghost from_gives = { λ _ e. e ≡ Refused };

    fn from(_: NotConstant) -> ReplaceError {
        ReplaceError::Refused
    }
}

impl From<Fault> for ReplaceError {
    ghost from_gives = { λ f e. e ≡ by_fault f };

    fn from(fault: Fault) -> ReplaceError {
        match fault {
            Fault::Broken => ReplaceError::Broken,
            Fault::NoRoom => ReplaceError::NoRoom,
        }
    }
}

// How the target is sought.
#[derive(Clone, Copy, Debug, PartialEq, Eq)]
enum Sought {
    // As a whole only.
    Whole,
    // By its factors too.
    Factors,
    // By its factors, which would never end.
    Endless,
}

// What is replaced, by which symbol, and whether it is sought by its factors too.
#[derive(Clone, Copy, Debug, PartialEq, Eq)]
struct Rule<'a> {
    target: &'a [u64],
    name: u64,
    by_factors: bool,
}

// What becomes of the first of some trees.
#[derive(Clone, Copy, Debug, PartialEq, Eq)]
enum Decision {
    // It is the target.
    Equal,
    // Its word stays.
    Stays,
    // It is a product without a match, and so is each of its words up to a factor that is no symbol: so many words
    // stay.
    Passed(usize),
    // It is a product with matches.
    Matched(Matched),
}

// A product with matches.
#[derive(Clone, Copy, Debug, PartialEq, Eq)]
struct Matched {
    // How many factors there are then before the names at the end, and how many these are.
    left: usize,
    copies: usize,
    // The coefficient's code.
    code: u64,
    // How many words the product is.
    long: usize,
}

// Whether a product has no factor, or the name alone, by the places of its factors.
fn is_lone(target: &[u64], name: u64, flat: Product, places: &[u64]) -> bool
    requires target_value { (trees_in target.now ≡ some 1) × (kind_of name ≡ 0) }
    requires flat_first { FlatFirst target.now flat.coefficient flat.count places.now }
    requires target_in_bounds { length target.now ≤ length places.now }
    ensures { result ≡ lone (name_of name) (flatten_mul_factors (tree_of target.now)).factors }
{
    if flat.count == 0 {
        true
    } else if flat.count > 1 {
        false
    } else {
        starts_with(&target[places[0] as usize..], &[name])
    }
}

// How the target is sought: by its factors where it is a Mul with coefficient 1.
fn seek(target: &[u64], name: u64, places: &mut [u64]) -> Sought
    requires { (trees_in target.now ≡ some 1) × (kind_of name ≡ 0) × (length target.now ≤ length places.old) }
    ensures { result ≡ sought_as (by_factors (tree_of target.now)) (lone (name_of name) (flatten_mul_factors (tree_of target.now)).factors) }
{
    if target[0] % KINDS != MUL {
        return Sought::Whole;
    }
    let Ok(flat) = flatten_mul_factors(target, 0, places) else {
        return Sought::Whole;
    };
    if !is_one(flat.coefficient) {
        Sought::Whole
    } else if is_lone(target, name, flat, places) {
        Sought::Endless
    } else {
        Sought::Factors
    }
}

// Whether a word of a product without a match stays, wherever in the product it stands: a symbol, a constant, a Neg or
// a Mul. Any other has operands to be rewritten before what follows them is known to be of the product.
fn is_plain(w: u64) -> bool
    ensures { result ≡ is_plain w }
{
    w % KINDS == SYM || is_passed(w)
}

// How many words of a product stay, where it has no match.
fn plain_words(tokens: &[u64], long: usize) -> usize
    requires { (0 < long) × (long ≤ length tokens.now) × (kind_of (slice_index tokens.now 0) ≡ 5) }
    ensures { Plain tokens.now long result }
{
    for q in 1..long {
        if !is_plain(tokens[q]) {
            return q;
        }
    }
    long
}

// Decides on a product whose factors' places are known.
fn decide_factors(
    tokens: &[u64],
    rule: Rule,
    flat: Passed,
    places: &mut [u64],
) -> Result<Decision, NotConstant>
    requires product_first { ProductFirst tokens.now rule.target.now rule.name }
    requires flat_first { FlatFirst tokens.now flat.product.coefficient flat.product.count places.old × (run_at tokens.now 0 ≡ some flat.next) }
    requires tokens_in_bounds { 2 * length tokens.now ≤ length places.old }
    ensures { Decides rule.entry.target.now rule.entry.name tokens.now places.new result }
{
    // Twice as many places are lent as the product has words, so there is room.
    let taken = take_out(tokens, rule.target, rule.name, places, flat.product.count).unwrap();
    if taken.times == 0 {
        return Ok(Decision::Passed(plain_words(tokens, flat.next)));
    }
    let code = constant_of(flat.product.coefficient).ok_or(NotConstant)?;
    let copies = names_at_end(tokens.len() as u64, &places[..taken.left]);
    Ok(Decision::Matched(Matched {
        left: taken.left - copies,
        copies,
        code,
        long: flat.next,
    }))
}

// Decides on a product that isn't the target.
fn decide_product(tokens: &[u64], rule: Rule, places: &mut [u64]) -> Result<Decision, NotConstant>
    requires product_first { ProductFirst tokens.now rule.target.now rule.name }
    requires tokens_in_bounds { 2 * length tokens.now ≤ length places.old }
    ensures { Decides rule.entry.target.now rule.entry.name tokens.now places.new result }
{
    let flat = flatten_tree(tokens, 0, places, 0);
    decide_factors(tokens, rule, flat, places)
}

// Decides on the first tree.
fn decide(tokens: &[u64], rule: Rule, places: &mut [u64]) -> Result<Decision, NotConstant>
    requires tokens_nonzero { (0 < length tokens.now) × Trees tokens.now × Target rule.target.now rule.name }
    requires sought_value { (rule.by_factors ≡ by_factors (tree_of rule.target.now)) × (2 * length tokens.now ≤ length places.old) }
    ensures { Decides rule.entry.target.now rule.entry.name tokens.now places.new result }
{
    if starts_with(tokens, rule.target) {
        return Ok(Decision::Equal);
    }
    if rule.by_factors && tokens[0] % KINDS == MUL {
        return decide_product(tokens, rule, places);
    }
    Ok(Decision::Stays)
}

// Writes a word n times from a place on.
fn put_repeated(w: u64, n: usize, at: usize, out: &mut [u64])
    requires { at + n ≤ length out.old }
    ensures { out.new ≡ take at out.old ++ (repeated n w ++ drop (at + n) out.old) }
{
    out[at..at + n].fill(w);
}

// Writes what stands before the factors of a product, its coefficient and its signs: the first part of
// `build_mul_from_factors`.
fn write_head(code: u64, signs: usize, out: &mut [u64]) -> usize
    requires { (code < 2 ^ 51) × (length (head_words code signs) ≤ length out.old) }
    ensures { (result ≡ length (head_words code signs)) × (out.new ≡ head_words code signs ++ drop (length (head_words code signs)) out.old) }
{
    if code == ONE {
        put_repeated(PRODUCT, signs, 0, out);
        return signs;
    }
    if code == MINUS_ONE {
        out[0] = MINUS;
        put_repeated(PRODUCT, signs, 1, out);
        return 1 + signs;
    }
    out[0] = PRODUCT;
    out[1] = CONST + KINDS * code;
    put_repeated(PRODUCT, signs, 2, out);
    2 + signs
}

// Writes the first tree, a product with matches.
#[cycle(rewrite_rewrite_product)]
fn rewrite_product(
    tokens: &[u64],
    rule: Rule,
    product: Matched,
    places: &mut [u64],
    out: &mut [u64],
) -> Result<usize, NotConstant>
    requires trees { Trees tokens.now × Target rule.target.now rule.name × (rule.by_factors ≡ by_factors (tree_of rule.target.now)) }
    requires cases { Match rule.target.now rule.name tokens.now places.old product.left product.copies product.code product.long }
    requires long_in_bounds { (2 * product.long ≤ length places.old) × (product.long ≤ length out.old) }
    ensures { Writes (product_out rule.entry.target.now rule.entry.name tokens.now) product.long out.old result out.new }
{
    let left = product.left;
    let copies = product.copies;
    let mut o = write_head(product.code, left + copies - 1, out);
    for j in 0..left {
        let at = places[j] as usize;
        let end = tree_end(tokens, at);
        let n = rewrite(&tokens[at..end], rule, &mut places[left..], &mut out[o..])?;
        o += n;
    }
    put_repeated(rule.name, copies, o, out);
    Ok(o + copies)
}

// Rewrites the words from the left.
#[cycle(rewrite_rewrite_product)]
fn rewrite(
    tokens: &[u64],
    rule: Rule,
    places: &mut [u64],
    out: &mut [u64],
) -> Result<usize, NotConstant>
    requires trees { Trees tokens.now × Target rule.target.now rule.name × (rule.by_factors ≡ by_factors (tree_of rule.target.now)) }
    requires tokens_in_bounds { (2 * length tokens.now ≤ length places.old) × (length tokens.now ≤ length out.old) }
    ensures { Writes (rewritten_words rule.entry.target.now rule.entry.name tokens.now) (length tokens.now) out.old result out.new }
{
    let mut i = 0;
    let mut o = 0;
    // A while, since what is decided on may be many words.
    while i < tokens.len() {
        match decide(&tokens[i..], rule, places)? {
            Decision::Equal => {
                out[o] = rule.name;
                i += rule.target.len();
                o += 1;
            }
            Decision::Stays => {
                out[o] = tokens[i];
                i += 1;
                o += 1;
            }
            Decision::Passed(n) => {
                copy(&tokens[i..i + n], &mut out[o..]);
                i += n;
                o += n;
            }
            Decision::Matched(product) => {
                let n = rewrite_product(&tokens[i..], rule, product, places, &mut out[o..])?;
                i += product.long;
                o += n;
            }
        }
    }
    Ok(o)
}

// Rewrites trees, where there is room for them, or leaves them as they were.
fn replace_sought(
    tokens: &[u64],
    rule: Rule,
    places: &mut [u64],
    out: &mut [u64],
) -> Result<usize, ReplaceError>
    requires trees { Trees tokens.now × Target rule.target.now rule.name × (rule.by_factors ≡ by_factors (tree_of rule.target.now)) }
    requires tokens_in_bounds { (2 * length tokens.now ≤ length places.old) × (length tokens.now ≤ length out.old) }
    ensures { Leaves (replaced_by (rewritten_words rule.entry.target.now rule.entry.name tokens.now) tokens.now out.old) result out.new }
{
    match rewrite(tokens, rule, places, out) {
        Ok(n) => Ok(n),
        Err(NotConstant) => {
            copy(tokens, out);
            Err(ReplaceError::Refused)
        }
    }
}

// Rewrites trees by one target.
fn replace_trees(
    tokens: &[u64],
    target: &[u64],
    name: u64,
    places: &mut [u64],
    out: &mut [u64],
) -> Result<usize, ReplaceError>
    requires { Trees tokens.now × (trees_in target.now ≡ some 1) × (kind_of name ≡ 0) × (length tokens.now ≤ length out.old) }
    ensures { Leaves (replacement true (scratch_short tokens.now target.now (length places.old)) (endless (tree_of target.now) (name_of name))
        (rewritten_words target.now name tokens.now) tokens.now out.old) result out.new }
{
    if places.len() / 2 < tokens.len() || places.len() < target.len() {
        return Err(ReplaceError::NoRoom);
    }
    match seek(target, name, places) {
        Sought::Whole => replace_sought(
            tokens,
            Rule {
                target,
                name,
                by_factors: false,
            },
            places,
            out,
        ),
        Sought::Factors => replace_sought(
            tokens,
            Rule {
                target,
                name,
                by_factors: true,
            },
            places,
            out,
        ),
        Sought::Endless => Err(ReplaceError::Broken),
    }
}

// Whether the target is sought by its factors.
fn seeks_factors(target: &[u64], name: u64, places: &mut [u64]) -> bool
    requires { (trees_in target.now ≡ some 1) × (kind_of name ≡ 0) × (length target.now ≤ length places.old) }
    ensures { result ≡ by_factors (tree_of target.now) }
{
    match seek(target, name, places) {
        Sought::Whole => false,
        Sought::Factors => true,
        Sought::Endless => true,
    }
}

// `replace` for a caller that knows that the words are trees, that replacing ends, and that there is room.
pub fn replace_known(
    tokens: &[u64],
    target: &[u64],
    name: u64,
    places: &mut [u64],
    out: &mut [u64],
) -> Result<usize, NotConstant>
    requires trees { Trees tokens.now × Target target.now name × (length target.now ≤ length places.old) }
    requires tokens_in_bounds { (2 * length tokens.now ≤ length places.old) × (length tokens.now ≤ length out.old) }
    ensures { Writes (rewritten_words target.now name tokens.now) (length tokens.now) out.old result out.new }
{
    let by_factors = seeks_factors(target, name, places);
    let rule = Rule {
        target,
        name,
        by_factors,
    };
    rewrite(tokens, rule, places, out)
}

// Each node equal to the target becomes the name, and so do the target's factors in a product, as often as they are all
// there.
pub fn replace(
    tokens: &[u64],
    target: &[u64],
    name: u64,
    places: &mut [u64],
    out: &mut [u64],
) -> Result<usize, ReplaceError>
    ensures { Leaves (replacement (replaceable tokens.now target.now name)
        (short_of_room tokens.now target.now (length places.old) (length out.old)) (endless (tree_of target.now) (name_of name))
        (rewritten_words target.now name tokens.now) tokens.now out.old) result out.new }
{
    if !are_formed(tokens) {
        return Err(ReplaceError::Broken);
    }
    check(tokens, target, name, out.len())?;
    replace_trees(tokens, target, name, places, out)
}
