// An answer's text from its rows: each binding by `Display` for `Intermediate`, then each result, a line feed after
// each. Every writer here, `write_answer` too, asks that such a part stands at the place; whether one does `print`
// decides before it calls (13). A statement, a match's arms and an arm are written by functions that call each other
// down the nesting, each further on in the words.
ghost use Rattle.std.specs.Prelude.{◌≡◌, cond, [], List, ◌++◌, ◌+◌, ◌<◌, ◌≤◌, length, drop};
ghost use Rattle.spec_tree.specs.Bytes.{bytes, decimal};
ghost use Rattle.spec_tree.specs.Rows.{Row};
ghost use Rattle.spec_tree.specs.Tokens.{number_in};
ghost use Rattle.spec_cse.specs.Answer.{Intermediate};
ghost use Rattle.fmt.specs.emit.Writing.{Writes, low_bytes};
ghost use Rattle.fmt.specs.symbols.Symbols.{symbol_text};
ghost use Rattle.fmt.specs.checked.Check.{rows_in};
ghost use Rattle.print.specs.told.Places.{StmtAt, names_ahead};
ghost use Rattle.print.specs.told.Pieces.{let_opening, tuple_opening, comma, tuple_closing, brace_opening, brace_closing, side_opening, arm_opening, arm_closing, arms_closing};
ghost use Rattle.print.specs.told.Writers.{TreeWritten, ValuesWritten, NamesWritten, LetWritten, HeadWritten, StmtWritten, ArmWritten, ArmsWritten, ResultsWritten, BindingsWritten, AnswerWritten, statement_ahead, SomeTree, SomeValues, SomeNames, SomeStmt, SomeArm, SomeArms, SomeResults, SomeAnswer};
ghost use Rattle.print.specs.answerwriter.Bindings.{is_sign, key_of, binding_of, Readable};

use fmt::writer::Pos;
use words::layout::{BRANCH_ROW, KINDS, LET, NAME, RESULT, SELECT_OR_ROW};
use words::tokens::tree_end;

const LINE_FEED: u8 = b'\n';

// Every writer takes the rows, the words, the slice, the place and `dry` side by side, as those of `fmt` do: a struct of
// them would be taken apart again at each call of theirs.

// What a match switches on, by the place of its key.
#[derive(Clone, Copy, Debug, PartialEq, Eq)]
pub enum Switch {
    Index(usize),
    Sign(usize),
}

// A statement as its rows tell it: a match's key stands inside the switch inside the binding (01, "Scoped fusion").
#[derive(Clone, Copy, Debug, PartialEq, Eq)]
pub enum Binding {
    // A name's code, and the place of its expression.
    Let {
        code: u64,
        value: usize,
    },
    // The place of the first name, how many names and arms there are, and whether the last arm is the default.
    Match {
        switch: Switch,
        first: usize,
        bound: usize,
        count: usize,
        defaulted: bool,
    },
}

// How the arms of a match are written: how many there are, whether they are the sides of an `if`, and whether the last
// is the default.
#[derive(Clone, Copy, Debug, PartialEq, Eq)]
struct Form {
    count: usize,
    bare: bool,
    defaulted: bool,
}

// ---- what stands before, between and after parts

// A text, where it is wanted.
fn put_if(out: &mut [u8], dry: bool, to: usize, wanted: bool, text: &[u8]) -> usize
    ensures { Writes dry out.old to (cond wanted text.now []) out.new result }
{
    if wanted {
        fmt::emit::put_bytes(out, dry, to, text)
    } else {
        fmt::emit::place(out, to)
    }
}

fn put_tuple_opening(out: &mut [u8], dry: bool, to: usize, n: usize) -> usize
    ensures { Writes dry out.old to (tuple_opening n) out.new result }
{
    put_if(out, dry, to, n != 1, b"(")
}

fn put_comma(out: &mut [u8], dry: bool, to: usize, i: usize) -> usize
    ensures { Writes dry out.old to (comma i) out.new result }
{
    put_if(out, dry, to, i != 0, b", ")
}

fn put_tuple_closing(out: &mut [u8], dry: bool, to: usize, n: usize) -> usize
    ensures { Writes dry out.old to (tuple_closing n) out.new result }
{
    put_if(out, dry, to, n != 1, b")")
}

// An arm of n statements has braces, where it is not the side of an `if`, which has them anyway.
fn put_brace_opening(out: &mut [u8], dry: bool, to: usize, bare: bool, n: usize) -> usize
    ensures { Writes dry out.old to (brace_opening bare n) out.new result }
{
    let braced = n != 0 && !bare;
    put_if(out, dry, to, braced, b"{ ")
}

fn put_brace_closing(out: &mut [u8], dry: bool, to: usize, bare: bool, n: usize) -> usize
    ensures { Writes dry out.old to (brace_closing bare n) out.new result }
{
    let braced = n != 0 && !bare;
    put_if(out, dry, to, braced, b" }")
}

fn put_side_opening(out: &mut [u8], dry: bool, to: usize, i: usize) -> usize
    ensures { Writes dry out.old to (side_opening i) out.new result }
{
    if i == 0 {
        return fmt::emit::put_bytes(out, dry, to, b" >= 0 { ");
    }
    fmt::emit::put_bytes(out, dry, to, b" } else { ")
}

fn put_number(out: &mut [u8], dry: bool, to: usize, i: usize) -> usize
    ensures { Writes dry out.old to (bytes " " ++ (decimal i ++ bytes " => ")) out.new result }
{
    let a = fmt::emit::put(out, dry, to, b' ');
    let e = fmt::emit::put_decimal(out, dry, a, i as u64);
    fmt::emit::put_bytes(out, dry, e, b" => ")
}

// Arm i: its number, or an underscore for the default.
fn put_arm_opening(out: &mut [u8], dry: bool, to: usize, form: Form, i: usize) -> usize
    requires { i < form.count }
    ensures { Writes dry out.old to (arm_opening form.bare form.defaulted form.count i) out.new result }
{
    if form.bare {
        return put_side_opening(out, dry, to, i);
    }
    if form.defaulted && i + 1 == form.count {
        return fmt::emit::put_bytes(out, dry, to, b" _ => ");
    }
    put_number(out, dry, to, i)
}

fn put_arm_closing(out: &mut [u8], dry: bool, to: usize, form: Form, i: usize) -> usize
    requires { i < form.count }
    ensures { Writes dry out.old to (arm_closing form.bare form.defaulted form.count i) out.new result }
{
    if form.bare && i == 0 {
        return fmt::emit::place(out, to);
    }
    if form.bare || form.defaulted && i + 1 == form.count {
        return fmt::emit::put_bytes(out, dry, to, b" };");
    }
    fmt::emit::put(out, dry, to, b',')
}

// A match without a default says so.
fn put_arms_closing(out: &mut [u8], dry: bool, to: usize, form: Form) -> usize
    ensures { Writes dry out.old to (arms_closing form.bare form.defaulted) out.new result }
{
    let open = !form.bare && !form.defaulted;
    put_if(out, dry, to, open, b" _ => panic };")
}

// ---- expressions and names

fn tree(rows: &[u64], words: &[u64], at: usize, out: &mut [u8], dry: bool, to: usize) -> Pos
    requires { SomeTree (rows_in rows.now) words.now at }
    ensures { TreeWritten (rows_in rows.now) words.now at dry out.old to out.new result.next result.to }
{
    fmt::writer::expression(rows, words, at, out, dry, to)
}

// n values as a tuple.
fn values(
    rows: &[u64],
    words: &[u64],
    at: usize,
    n: usize,
    out: &mut [u8],
    dry: bool,
    to: usize,
) -> Pos
    requires { SomeValues (rows_in rows.now) words.now n at }
    ensures { ValuesWritten (rows_in rows.now) words.now at dry out.old to out.new result.next result.to n }
{
    let mut next = at;
    let mut end = put_tuple_opening(out, dry, to, n);
    for i in 0..n {
        let start = put_comma(out, dry, end, i);
        let p = tree(rows, words, next + 1, out, dry, start);
        next = p.next;
        end = p.to;
    }
    let e = put_tuple_closing(out, dry, end, n);
    Pos { next, to: e }
}

// n names as a tuple.
fn names(
    rows: &[u64],
    words: &[u64],
    at: usize,
    n: usize,
    out: &mut [u8],
    dry: bool,
    to: usize,
) -> usize
    requires { SomeNames (rows_in rows.now) words.now n at }
    ensures { NamesWritten (rows_in rows.now) words.now dry out.old to out.new result n at }
{
    let mut end = put_tuple_opening(out, dry, to, n);
    for i in 0..n {
        let start = put_comma(out, dry, end, i);
        end = fmt::symbols::put_name(rows, out, dry, start, words[at + i] / KINDS);
    }
    put_tuple_closing(out, dry, end, n)
}

// ---- statements

// The place after the match names from `at` on.
fn names_end(words: &[u64], at: usize) -> usize
    requires { at ≤ length words.now }
    ensures { result ≡ at + names_ahead (drop at words.now) }
{
    for i in at..words.len() {
        if words[i] % KINDS != NAME {
            return i;
        }
    }
    words.len()
}

// The rows have a match's key before its names; the text has its names first.
fn read_binding(words: &[u64], at: usize) -> Binding
    requires { Readable words.now at }
    ensures { (rows : List Row) (s : Intermediate) → StmtAt rows words.now at s → result ≡ binding_of (number_in rows) at s }
{
    let w = words[at];
    let kind = w % KINDS;
    let key = at + 1;
    if kind == LET {
        return Binding::Let {
            code: w / KINDS,
            value: key,
        };
    }
    let switch = if kind == BRANCH_ROW {
        Switch::Sign(key)
    } else {
        Switch::Index(key)
    };
    let first = tree_end(words, key);
    let bound = names_end(words, first) - first;
    Binding::Match {
        switch,
        first,
        bound,
        count: (w / KINDS) as usize - 1 - bound,
        defaulted: kind == SELECT_OR_ROW,
    }
}

fn is_sign(switch: Switch) -> bool
    ensures { result ≡ is_sign switch }
{
    matches!(switch, Switch::Sign(_))
}

// What stands before the expression of a let of the name with that code.
pub(crate) fn let_opening(rows: &[u64], out: &mut [u8], dry: bool, to: usize, code: u64) -> usize
    ensures { Writes dry out.old to (let_opening (low_bytes (symbol_text rows.now code))) out.new result }
{
    let a = fmt::emit::put_bytes(out, dry, to, b"let ");
    let b = fmt::symbols::put_name(rows, out, dry, a, code);
    fmt::emit::put_bytes(out, dry, b, b" = ")
}

// A let of the name with that code; `at` is the place of its expression.
fn let_statement(
    rows: &[u64],
    words: &[u64],
    code: u64,
    at: usize,
    out: &mut [u8],
    dry: bool,
    to: usize,
) -> Pos
    requires { SomeTree (rows_in rows.now) words.now at }
    ensures { LetWritten (rows_in rows.now) words.now at dry out.old to out.new result.next result.to
        (low_bytes (symbol_text rows.now code)) }
{
    let c = let_opening(rows, out, dry, to, code);
    let p = tree(rows, words, at, out, dry, c);
    let e = fmt::emit::put(out, dry, p.to, b';');
    Pos {
        next: p.next,
        to: e,
    }
}

// A match up to its arms.
fn head(
    rows: &[u64],
    words: &[u64],
    switch: Switch,
    at: usize,
    bound: usize,
    out: &mut [u8],
    dry: bool,
    to: usize,
) -> usize
    requires some_tree { SomeTree (rows_in rows.now) words.now (key_of switch) }
    requires some_names { SomeNames (rows_in rows.now) words.now bound at }
    ensures { HeadWritten (rows_in rows.now) words.now dry out.old to out.new result (is_sign switch) (key_of switch) bound at }
{
    let a = fmt::emit::put_bytes(out, dry, to, b"let ");
    let b = names(rows, words, at, bound, out, dry, a);
    match switch {
        Switch::Sign(key) => {
            let c = fmt::emit::put_bytes(out, dry, b, b" = if ");
            let p = tree(rows, words, key, out, dry, c);
            p.to
        }
        Switch::Index(key) => {
            let c = fmt::emit::put_bytes(out, dry, b, b" = match ");
            let p = tree(rows, words, key, out, dry, c);
            fmt::emit::put_bytes(out, dry, p.to, b" {")
        }
    }
}

#[cycle(arm_arms_statement)]
fn statement(rows: &[u64], words: &[u64], at: usize, out: &mut [u8], dry: bool, to: usize) -> Pos
    requires { SomeStmt (rows_in rows.now) words.now at }
    ensures { StmtWritten (rows_in rows.now) words.now at dry out.old to out.new result.next result.to }
{
    match read_binding(words, at) {
        Binding::Let { code, value } => let_statement(rows, words, code, value, out, dry, to),
        Binding::Match {
            switch,
            first,
            bound,
            count,
            defaulted,
        } => {
            let form = Form {
                count,
                bare: is_sign(switch),
                defaulted,
            };
            let e = head(rows, words, switch, first, bound, out, dry, to);
            arms(rows, words, first + bound, bound, form, out, dry, e)
        }
    }
}

// The arms of a match of `bound` names.
#[cycle(arm_arms_statement)]
fn arms(
    rows: &[u64],
    words: &[u64],
    at: usize,
    bound: usize,
    form: Form,
    out: &mut [u8],
    dry: bool,
    to: usize,
) -> Pos
    requires { SomeArms (rows_in rows.now) words.now bound form.count at }
    ensures { ArmsWritten (rows_in rows.now) words.now at dry out.old to out.new result.next result.to
        form.bare form.defaulted bound form.count }
{
    let mut next = at;
    let mut end = to;
    for i in 0..form.count {
        let start = put_arm_opening(out, dry, end, form, i);
        let p = arm(rows, words, next, bound, form.bare, out, dry, start);
        next = p.next;
        end = put_arm_closing(out, dry, p.to, form, i);
    }
    let e = put_arms_closing(out, dry, end, form);
    Pos { next, to: e }
}

// An arm: its statements, a space after each, and its values.
#[cycle(arm_arms_statement)]
fn arm(
    rows: &[u64],
    words: &[u64],
    at: usize,
    bound: usize,
    bare: bool,
    out: &mut [u8],
    dry: bool,
    to: usize,
) -> Pos
    requires { SomeArm (rows_in rows.now) words.now bound at }
    ensures { ArmWritten (rows_in rows.now) words.now at dry out.old to out.new result.next result.to bare bound }
{
    let count = (words[at] / KINDS) as usize - bound;
    let mut next = at + 1;
    let mut end = put_brace_opening(out, dry, to, bare, count);
    for _ in 0..count {
        let p = statement(rows, words, next, out, dry, end);
        next = p.next;
        end = fmt::emit::put(out, dry, p.to, b' ');
    }
    let v = values(rows, words, next, bound, out, dry, end);
    let e = put_brace_closing(out, dry, v.to, bare, count);
    Pos {
        next: v.next,
        to: e,
    }
}

// ---- answers

fn statement_next(words: &[u64], at: usize) -> bool
    ensures { result ≡ statement_ahead (drop at words.now) }
{
    at < words.len() && words[at] != RESULT
}

fn bindings(rows: &[u64], words: &[u64], out: &mut [u8], dry: bool) -> Pos
    requires { SomeAnswer (rows_in rows.now) words.now }
    ensures { BindingsWritten (rows_in rows.now) words.now dry out.old 0 out.new result.to result.next }
{
    let mut next = 0;
    let mut end = 0;
    // A turn passes a whole statement.
    while statement_next(words, next) {
        let p = statement(rows, words, next, out, dry, end);
        next = p.next;
        end = fmt::emit::put(out, dry, p.to, LINE_FEED);
    }
    Pos { next, to: end }
}

fn results(rows: &[u64], words: &[u64], at: usize, out: &mut [u8], dry: bool, to: usize) -> usize
    requires { SomeResults (rows_in rows.now) words.now at }
    ensures { ResultsWritten (rows_in rows.now) words.now dry out.old to out.new result at }
{
    let mut next = at;
    let mut end = to;
    // A turn passes a whole tree.
    while next < words.len() {
        let p = tree(rows, words, next + 1, out, dry, end);
        next = p.next;
        end = fmt::emit::put(out, dry, p.to, LINE_FEED);
    }
    fmt::emit::place(out, end)
}

// The place after the answer's text, written from the start; where `dry` it is only measured. For callers that know
// that the words are an answer's rows: it asks that (`requires`) and they prove it, so that the rows are not checked
// again for each of the two calls of `print`.
pub fn write_answer(rows: &[u64], words: &[u64], out: &mut [u8], dry: bool) -> usize
    requires { SomeAnswer (rows_in rows.now) words.now }
    ensures { AnswerWritten (rows_in rows.now) words.now dry out.old 0 out.new result }
{
    let p = bindings(rows, words, out, dry);
    results(rows, words, p.next, out, dry, p.to)
}
