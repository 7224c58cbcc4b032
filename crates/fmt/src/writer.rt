// The text of the tree at a place of some words: `Display` for `Expr`. The expression writer and the child writer, which puts brackets where
// the source does, call each other down the tree; they ask that the tree is there and is one that print takes, which `tree_ok` decides. `write_tree` does both.
ghost use Rattle.std.specs.Prelude.{◌≡◌};
ghost use Rattle.spec_tree.specs.text.Text.{part, display, precedence, bracketed};
ghost use Rattle.fmt.specs.emit.Writing.{Writes};
ghost use Rattle.fmt.specs.shapes.Places.{tree_here, Stands, Passes};
ghost use Rattle.fmt.specs.shapes.Operands.{opening, sign, between, closing, left_test, right_test, brackets};
ghost use Rattle.fmt.specs.writer.Answers.{write_answer};

use crate::checked::tree_ok;
use crate::emit::{place, put, put_bytes, put_integer};
use crate::kindnames::put_kind_name;
use crate::symbols::put_name;
use words::layout::{ADD, CONST, DIV, KINDS, MUL, NEG, POW, SUB, SYM};

// The precedences of the source: sums, products, Neg, Pow, and everything else.
const SUMS: u64 = 1;

const PRODUCTS: u64 = 2;

const MINUS: u64 = 3;

const POWERS: u64 = 4;

const ATOMS: u64 = 10;

// The place after the words that were read, and the place after the text that was written.
#[derive(Clone, Copy, Debug, PartialEq, Eq)]
pub struct Pos {
    pub next: usize,
    pub to: usize,
}

#[tactic(auto, unfolding(spec_tree::specs::text::Text::precedence))]
fn precedence(kind: u64) -> u64
    ensures { result ≡ precedence kind }
{
    match kind {
        NEG => MINUS,
        ADD | SUB => SUMS,
        MUL | DIV => PRODUCTS,
        POW => POWERS,
        _ => ATOMS,
    }
}

// Whether a first operand stands in brackets, by its parent's kind and its own precedence.
#[tactic(auto, unfolding(crate::specs::shapes::Operands::left_test))]
fn left_in_brackets(parent: u64, p: u64) -> bool
    ensures { result ≡ left_test parent p }
{
    match parent {
        NEG => p == SUMS || p == MINUS,
        SYM..=SUB => p < SUMS,
        MUL | DIV => p < PRODUCTS,
        POW => p <= POWERS,
        _ => false,
    }
}

// Whether any other operand does. On the right of - and / an operand of the same precedence does too.
#[tactic(auto, unfolding(crate::specs::shapes::Operands::right_test))]
fn right_in_brackets(parent: u64, p: u64) -> bool
    ensures { result ≡ right_test parent p }
{
    match parent {
        ADD => p < SUMS,
        SUB => p <= SUMS,
        MUL => p < PRODUCTS,
        DIV => p <= PRODUCTS,
        POW => p < ATOMS,
        _ => false,
    }
}

#[tactic(auto, unfolding(crate::specs::shapes::Operands::brackets))]
fn in_brackets(parent: u64, index: u64, p: u64) -> bool
    ensures { result ≡ brackets parent index p }
{
    if index == 0 {
        left_in_brackets(parent, p)
    } else {
        right_in_brackets(parent, p)
    }
}

// What stands before the operands.
#[tactic(auto, using(crate::proofs::emit::WriteLaws::writes_none), unfolding(crate::specs::shapes::Operands::opening))]
fn put_opening(out: &mut [u8], dry: bool, to: usize, kind: u64) -> usize
    ensures { Writes dry out.old to (opening kind) out.new result }
{
    match kind {
        NEG => put(out, dry, to, b'-'),
        SYM..=POW => place(out, to),
        _ => put_kind_name(out, dry, to, kind),
    }
}

// An operator's sign, as far as Div.
#[tactic(auto, unfolding(crate::specs::shapes::Operands::sign))]
fn sign(kind: u64) -> u8
    ensures { result ≡ sign kind }
{
    match kind {
        ADD => b'+',
        SUB => b'-',
        MUL => b'*',
        _ => b'/',
    }
}

// What stands before operand `index`: nothing before the first.
#[tactic(auto, using(crate::proofs::emit::WriteLaws::writes_none), unfolding(crate::specs::shapes::Operands::between, crate::specs::shapes::Operands::separator))]
fn put_between(out: &mut [u8], dry: bool, to: usize, kind: u64, index: u64) -> usize
    ensures { Writes dry out.old to (between kind index) out.new result }
{
    if index == 0 {
        return place(out, to);
    }
    match kind {
        SYM..=DIV => put_bytes(out, dry, to, &[b' ', sign(kind), b' ']),
        POW => put(out, dry, to, b'^'),
        _ => put_bytes(out, dry, to, b", "),
    }
}

// What stands after them.
#[tactic(auto, using(crate::proofs::emit::WriteLaws::writes_none), unfolding(crate::specs::shapes::Operands::closing))]
fn put_closing(out: &mut [u8], dry: bool, to: usize, kind: u64) -> usize
    ensures { Writes dry out.old to (closing kind) out.new result }
{
    if kind <= POW {
        place(out, to)
    } else {
        put(out, dry, to, b')')
    }
}

// The expression writer.
#[cycle(child_expression)]
pub fn expression(
    rows: &[u64],
    tokens: &[u64],
    at: usize,
    out: &mut [u8],
    dry: bool,
    to: usize,
) -> Pos
    requires { Stands rows.now tokens.now at }
    ensures { Passes dry out.old at to (tree_here rows.now tokens.now at)
        (display (tree_here rows.now tokens.now at)) out.new result.next result.to }
{
    let w = tokens[at];
    let kind = w % KINDS;
    let below = w / KINDS;
    let mut next = at + 1;
    if kind == SYM {
        let e = put_name(rows, out, dry, to, below);
        return Pos { next, to: e };
    }
    if kind == CONST {
        let e = put_integer(out, dry, to, below);
        return Pos { next, to: e };
    }
    let mut end = put_opening(out, dry, to, kind);
    for i in 0..below {
        let start = put_between(out, dry, end, kind, i);
        let p = child(rows, tokens, next, out, dry, start, kind, i);
        next = p.next;
        end = p.to;
    }
    let e = put_closing(out, dry, end, kind);
    Pos { next, to: e }
}

// The child writer: operand `index` of an operation of kind `parent`.
#[cycle(child_expression)]
fn child(
    rows: &[u64],
    tokens: &[u64],
    at: usize,
    out: &mut [u8],
    dry: bool,
    to: usize,
    parent: u64,
    index: u64,
) -> Pos
    requires { Stands rows.now tokens.now at }
    ensures { Passes dry out.old at to (tree_here rows.now tokens.now at)
        (bracketed (brackets parent index (part (tree_here rows.now tokens.now at)).prec) (display (tree_here rows.now tokens.now at)))
        out.new result.next result.to }
{
    let w = tokens[at];
    let p = precedence(w % KINDS);
    if in_brackets(parent, index, p) {
        let open = put(out, dry, to, b'(');
        let inner = expression(rows, tokens, at, out, dry, open);
        let e = put(out, dry, inner.to, b')');
        return Pos {
            next: inner.next,
            to: e,
        };
    }
    expression(rows, tokens, at, out, dry, to)
}

// The text of the tree at `at`, written from `to` on; None, and nothing written, where its words aren't all there or it isn't a tree of an answer. The node
// rows have the names of the list's symbols. Where `dry` nothing is written and the places are the same.
pub fn write_tree(
    rows: &[u64],
    tokens: &[u64],
    at: usize,
    out: &mut [u8],
    dry: bool,
    to: usize,
) -> Option<Pos>
    ensures { (result ≡ (write_answer rows.now tokens.now at dry out.old to).answer)
        × (out.new ≡ (write_answer rows.now tokens.now at dry out.old to).bytes) }
{
    tree_ok(rows, tokens, at)?;
    Some(expression(rows, tokens, at, out, dry, to))
}
