// Prints what load gives for stored sheets. Standard input has a sheet on each line (compare/sheets/stored.rs says how
// it is laid out). Load is called on each, and a line says what it returns, and a digest of all that it leaves in
// memory. The file `stdout` has what a reading of the paper in Rust gives for these sheets.
#![tactic(auto)]

ghost use Rattle.std.specs.Prelude.{◌≤◌, length};

use load::{Refused, Table, load};
use std::io::Stdout;
use stdio::{read_front, write_all};

// Bytes that mean something in the list.
const REMARK: u8 = b'#';

const PART: u8 = b'|';

const REPEATED: u8 = b'*';

const LINE_END: u8 = b'/';

const TURN: u8 = b'#';

const ESCAPED: u8 = b'\\';

// Where the sheet of a line begins.
const COLUMNS: usize = 10;

// Memory is filled with this and the number of the word: no row, root or count is as large.
const FILLED: u64 = 9223372036854775808;

// A prime above 2^32, and a factor: a change of one word changes the digest.
const PRIME: u64 = 4294967311;

const FACTOR: u64 = 1000003;

const HALF: u64 = 4294967296;

// ---- bytes and numbers

// A digit, also a hexadecimal one.
fn digit(b: u8) -> u64 {
    match b {
        b'a'.. => u64::from((b - b'a' + 10) % 16),
        b'0'.. => u64::from((b - b'0') % 16),
        _ => 0,
    }
}

// Decimal digits, fewer than 16 of them.
fn number(s: &[u8]) -> u64 {
    s.iter().fold(0, |v, b| one_digit_more(v, digit(*b)))
}

fn one_digit_more(v: u64, d: u64) -> u64 {
    (v % 1000000000000000) * 10 + d % 10
}

// ---- the sheet of a line

// A byte where there is room for it.
fn put(b: u8, out: &mut [u8], n: usize) -> usize {
    if n < out.len() {
        out[n] = b;
        return n + 1;
    }
    n
}

fn put_all(s: &[u8], out: &mut [u8], from: usize) -> usize {
    let mut n = from;
    for b in s {
        n = put(*b, out, n);
    }
    n
}

fn put_number(v: u64, out: &mut [u8], n: usize) -> usize {
    let mut digits = [0u8; 20];
    let k = io::decimal(v, &mut digits);
    put_all(&digits[..k], out, n)
}

// The byte of the two digits after the sign.
fn escaped(s: &[u8]) -> u8 {
    match s {
        [_, high, low, ..] => (16 * (digit(*high) % 16) + digit(*low) % 16) as u8,
        _ => 0,
    }
}

// What the signs at the front of s stand for.
fn put_sign(s: &[u8], turn: u64, out: &mut [u8], n: usize) -> usize {
    match s {
        [] => n,
        [LINE_END, ..] => put_all(b"\r\n", out, n),
        [TURN, ..] => put_number(turn, out, n),
        [ESCAPED, ..] => put(escaped(s), out, n),
        [b, ..] => put(*b, out, n),
    }
}

fn sign_length(b: u8) -> usize
    ensures { (1 ≤ result) × (result ≤ 3) }
{
    if b == ESCAPED { 3 } else { 1 }
}

fn put_piece(s: &[u8], turn: u64, out: &mut [u8], from: usize) -> usize {
    let mut n = from;
    let mut rest = s;
    // No `for`: an escaped byte takes three of the list's.
    while !rest.is_empty() {
        n = put_sign(rest, turn, out, n);
        let step = sign_length(rest[0]);
        if rest.len() < step {
            return n;
        }
        rest = &rest[step..];
    }
    n
}

fn put_times(s: &[u8], times: u64, out: &mut [u8], from: usize) -> usize {
    let mut n = from;
    for turn in 0..times {
        n = put_piece(s, turn, out, n);
    }
    n
}

// A piece, or `*NNNNN:` and a piece that comes so many times.
fn put_part(s: &[u8], out: &mut [u8], n: usize) -> usize {
    if s.len() >= 7 && s[0] == REPEATED {
        put_times(&s[7..], number(&s[1..6]), out, n)
    } else {
        put_piece(s, 0, out, n)
    }
}

fn put_sheet(s: &[u8], out: &mut [u8]) -> usize {
    let mut n = 0;
    for part in s.split(|b| *b == PART) {
        n = put_part(part, out, n);
    }
    n
}

// ---- the call

fn fill(words: &mut [u64]) {
    for (i, w) in words.iter_mut().enumerate() {
        *w = FILLED + (i % 65536) as u64;
    }
}

fn step(d: u64, half: u64) -> u64 {
    ((d % PRIME) * FACTOR + half % HALF) % PRIME
}

// The digest goes on with both halves of each word.
fn digest(from: u64, words: &[u64]) -> u64 {
    words.iter().fold(from, |d, w| step(step(d, *w / HALF), *w))
}

// A number's digits, by `write_all` and no `print!`, here and in the other replays: that gives up on a line after some
// writes that signals interrupt. Each has its own, since a public one of stdio would have nothing to promise.
fn say_decimal(to: Stdout, n: u64) {
    let mut digits = [0u8; 20];
    let k = io::decimal(n, &mut digits);
    write_all(&to, &digits[..k]);
}

// 01's number or 0, the record or how many rows, how many roots, and the digest. That a write failed has nobody to
// tell.
fn say_answer(to: Stdout, number: u64, count: u64, roots: u64, digest: u64) {
    for n in [number, count, roots] {
        say_decimal(to, n);
        write_all(&to, b" ");
    }
    say_decimal(to, digest);
    write_all(&to, b"\n");
}

fn say_sheet(to: Stdout, sheet: &[u8], rows: &mut [u64], roots: &mut [u64]) {
    fill(rows);
    fill(roots);
    let loaded = load(sheet, rows, roots);
    let d = digest(digest(0, rows), roots);
    match loaded {
        Ok(Table { rows, roots }) => say_answer(to, 0, rows as u64, roots as u64, d),
        Err(Refused { refusal, record }) => say_answer(to, u64::from(refusal), record, 0, d),
    }
}

// ---- lines of the list

// The sheet has n bytes, and so many words and places are lent.
fn say_lent(
    to: Stdout,
    sheet: &[u8],
    n: usize,
    rows: &mut [u64],
    words: usize,
    roots: &mut [u64],
    places: usize,
) {
    if n <= sheet.len() && words <= rows.len() && places <= roots.len() {
        say_sheet(to, &sheet[..n], &mut rows[..words], &mut roots[..places]);
    }
}

fn say_remark(to: Stdout, line: &[u8]) {
    write_all(&to, line);
    write_all(&to, b"\n");
}

// A remark is printed as it is.
fn say_line(to: Stdout, line: &[u8]) {
    if line.starts_with(&[REMARK]) {
        say_remark(to, line);
        return;
    }
    if line.len() < COLUMNS {
        return;
    }
    let mut sheet = [0u8; 65600];
    let mut rows = [0u64; 36000];
    let mut roots = [0u64; 80];
    let n = put_sheet(&line[COLUMNS..], &mut sheet);
    let words = number(&line[0..5]) as usize;
    let places = number(&line[6..9]) as usize;
    say_lent(to, &sheet, n, &mut rows, words, &mut roots, places);
}

fn replay(to: Stdout, list: &[u8]) {
    for line in list.split(|b| *b == b'\n') {
        say_line(to, line);
    }
}

fn main(rt: HostRuntime) {
    let mut list = [0u8; 65536];
    let n = read_front(rt.stdin(), &mut list);
    replay(rt.stdout(), &list[..n]);
}
