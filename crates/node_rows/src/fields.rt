// The fields of a node row (01, "Expressions and facts"), for any words: a constant's sign, 1 for minus, and size;
// numbers of earlier nodes; and all fields by the kind.
ghost use Rattle.std.specs.Prelude.{◌≡◌, ◌≤◌, length, drop};
ghost use Rattle.node_rows.specs.fields.Constant.{constant_test};
ghost use Rattle.node_rows.specs.fields.Below.{below};
ghost use Rattle.node_rows.specs.fields.Tests.{operation_test, plain_test, fields_test};

use crate::kinds::operands_ok;
use crate::names::is_name;
use words::layout::{CONST, SELECT, SYM};

// Ten to the fifteenth, which no constant's size reaches.
const CONSTANT_BOUND: u64 = 1000000000000000;

// No constant is minus zero.
#[tactic(auto, unfolding(crate::specs::fields::Constant::constant_test))]
pub(crate) fn constant_ok(fields: &[u64]) -> bool
    ensures { result ≡ constant_test fields.now }
{
    match fields {
        [0, size] => *size < CONSTANT_BOUND,
        [1, size] => *size > 0 && *size < CONSTANT_BOUND,
        _ => false,
    }
}

// Operands and roots name earlier rows: each number is below a bound.
pub fn all_below(numbers: &[u64], bound: u64) -> bool
    ensures { result ≡ below bound numbers.now }
{
    numbers.iter().all(|n| *n < bound)
}

// Whether all words are 0. They are put together before one test, since that is four words at a step where a test of
// each is one.
fn all_zero(words: &[u64]) -> bool
    ensures { result ≡ below 1 words.now }
{
    let mut any = 0;
    for w in words {
        any |= *w;
    }
    any == 0
}

// Whether a row's words from `end` on are 0. Most rows have one or two fields; what follows those is of one length.
pub(crate) fn zero_from(row: &[u64], end: usize) -> bool
    requires row_len { length row.now ≡ 35 }
    requires end_bound { end ≤ 35 }
    ensures { result ≡ below 1 (drop end row.now) }
{
    if end > 5 {
        return all_zero(&row[end..]);
    }
    all_zero(&row[end..5]) && all_zero(&row[5..35])
}

#[tactic(auto, unfolding(crate::specs::fields::Tests::operation_test, spec_tree::specs::Kinds::arity_ok))]
fn operation_ok(kind: u64, default: bool, operands: &[u64], i: u64) -> bool
    ensures { result ≡ operation_test kind default operands.now i }
{
    operands_ok(kind, default, operands.len() as u64) && all_below(operands, i)
}

#[tactic(auto, unfolding(crate::specs::fields::Tests::plain_test))]
fn plain_ok(kind: u64, fields: &[u64], i: u64) -> bool
    ensures { result ≡ plain_test kind fields.now i }
{
    match kind {
        SYM => is_name(fields),
        CONST => constant_ok(fields),
        _ => operation_ok(kind, false, fields, i),
    }
}

// Only a Select has a default.
#[tactic(auto, unfolding(crate::specs::fields::Tests::fields_test))]
pub(crate) fn fields_ok(kind: u64, default: u64, fields: &[u64], i: u64) -> bool
    ensures { result ≡ fields_test kind default fields.now i }
{
    match default {
        0 => plain_ok(kind, fields, i),
        1 => kind == SELECT && operation_ok(SELECT, true, fields, i),
        _ => false,
    }
}
