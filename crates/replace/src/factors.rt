// `flatten_mul_factors` of the source over words (Tokens): a product's coefficient, multiplied as f64 in the source's
// order, and where its factors stand among the words. A Mul and a Neg are passed through, a constant goes into the
// coefficient, and any other node is a factor.
ghost use Rattle.std.specs.Prelude.{◌≡◌, ◌+◌, ◌≤◌, false, map, length, slice_index};
ghost use Rattle.spec_tree.specs.Facts.{total, size};
ghost use Rattle.replace.specs.factors.Places.{tree, trees_from, Stands, passes_through, TreeFlat, EachFlat};
ghost use Rattle.replace.specs.factors.Answers.{flatten_answer};

use words::fault::Fault;
use words::layout::{CONST, KINDS, MUL, NEG, SYM};
use words::tokens::{end_of, operand_count, tree_end};

// A product's coefficient and how many factors it has.
#[derive(Clone, Copy, Debug, PartialEq)]
pub struct Product {
    pub coefficient: f64,
    pub count: usize,
}

// A product, and the place after its words.
#[derive(Clone, Copy, Debug, PartialEq)]
pub struct Passed {
    pub product: Product,
    pub next: usize,
}

// The place after the tree at `at`, which is there; a symbol is one word.
fn past(tokens: &[u64], at: usize) -> usize
    requires { Stands tokens.now at 1 }
    ensures { result ≡ at + size (tree tokens.now at) }
{
    if tokens[at] % KINDS == SYM {
        return at + 1;
    }
    tree_end(tokens, at)
}

// A tree that is neither a Mul nor a Neg: a constant is a coefficient with no factor, and any other is a factor itself,
// whose place is written at `used`.
fn flatten_other(tokens: &[u64], at: usize, places: &mut [u64], used: usize) -> Passed
    requires stands { Stands tokens.now at 1 }
    requires at_in_bounds { used + size (tree tokens.now at) ≤ length places.old }
    requires at_value { passes_through (slice_index tokens.now at) ≡ false }
    ensures { TreeFlat tokens.now at places.old used result.product.coefficient result.product.count result.next places.new }
{
    let w = tokens[at];
    if w % KINDS == CONST {
        return Passed {
            product: Product {
                coefficient: crate::coefficient::float_of(w / KINDS),
                count: 0,
            },
            next: at + 1,
        };
    }
    places[used] = at as u64;
    Passed {
        product: Product {
            coefficient: 1.0,
            count: 1,
        },
        next: past(tokens, at),
    }
}

// Takes the tree at `at` apart. The places of its factors are written from `used` on.
#[cycle(flatten_each_flatten_tree)]
pub fn flatten_tree(tokens: &[u64], at: usize, places: &mut [u64], used: usize) -> Passed
    requires stands { Stands tokens.now at 1 }
    requires at_in_bounds { used + size (tree tokens.now at) ≤ length places.old }
    ensures { TreeFlat tokens.now at places.old used result.product.coefficient result.product.count result.next places.new }
{
    let w = tokens[at];
    let operands = operand_count(w) as usize;
    if w % KINDS == MUL {
        return flatten_each(tokens, at + 1, operands, places, used);
    }
    if w % KINDS == NEG {
        let p = flatten_each(tokens, at + 1, operands, places, used);
        return Passed {
            product: Product {
                coefficient: -p.product.coefficient,
                count: p.product.count,
            },
            next: p.next,
        };
    }
    flatten_other(tokens, at, places, used)
}

// Takes `count` trees from `at` on apart as one product, multiplied from the left.
#[cycle(flatten_each_flatten_tree)]
fn flatten_each(tokens: &[u64], at: usize, count: usize, places: &mut [u64], used: usize) -> Passed
    requires stands { Stands tokens.now at count }
    requires count_in_bounds { used + total (map size (trees_from tokens.now at count)) ≤ length places.old }
    ensures { EachFlat tokens.now at count places.old used result.product.coefficient result.product.count result.next places.new }
{
    if count == 0 {
        return Passed {
            product: Product {
                coefficient: 1.0,
                count: 0,
            },
            next: at,
        };
    }
    let first = flatten_tree(tokens, at, places, used);
    let mut coefficient = first.product.coefficient;
    let mut found = first.product.count;
    let mut next = first.next;
    for _ in 1..count {
        let p = flatten_tree(tokens, next, places, used + found);
        coefficient = coefficient * p.product.coefficient;
        found += p.product.count;
        next = p.next;
    }
    Passed {
        product: Product {
            coefficient,
            count: found,
        },
        next,
    }
}

// The coefficient and the number of factors of the tree at `at`; where each factor stands is written in order from the
// front of `places`.
pub fn flatten_mul_factors(tokens: &[u64], at: usize, places: &mut [u64]) -> Result<Product, Fault>
    ensures { (result ≡ (flatten_answer tokens.now at places.old).answer) × (places.new ≡ (flatten_answer tokens.now at places.old).places) }
{
    let end = end_of(tokens, at).ok_or(Fault::Broken)?;
    if places.len() < end - at {
        return Err(Fault::NoRoom);
    }
    Ok(flatten_tree(tokens, at, places, 0).product)
}
