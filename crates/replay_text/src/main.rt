// Prints stored trees and answers. Standard input has words of trees and rows of answers (compare/texts/stored.rs says
// how a line is laid out). Each tree is measured and written, each answer printed, and what is answered and all bytes
// lent are written out. The file `stdout` has what the source's own `Display` gives for these.
#![tactic(auto)]

ghost use Rattle.std.specs.Prelude.{◌≤◌, length};

use fmt::writer::{Pos, write_tree};
use print::print;
use std::io::Stdout;
use stdio::{read_front, write_all};

// A line with an answer begins with this.
const ANSWER: u8 = b'!';

// The bytes lent are filled with this, which no text has.
const FILLED: u8 = b'#';

// ---- the parts of a line

fn one_digit_more(v: u64, b: u8) -> u64 {
    if b < b'0' {
        return v;
    }
    (v % 1000000000000000000) * 10 + u64::from((b - b'0') % 10)
}

// Decimal digits, fewer than 19 of them; a space counts for nothing.
fn number(s: &[u8]) -> u64 {
    s.iter().fold(0, |v, b| one_digit_more(v, *b))
}

// The words of a line, a space between them: how many there are. Those past the room for them are left out.
fn read_words(s: &[u8], words: &mut [u64]) -> usize
    ensures { result ≤ length words.new }
{
    let mut n = 0;
    for word in s.split_inclusive(|b| *b == b' ') {
        if n == words.len() {
            return n;
        }
        words[n] = number(word);
        n += 1;
    }
    n
}

// ---- the calls. That a write failed has nobody to tell.

fn say_bytes(to: Stdout, out: &[u8]) {
    write_all(&to, out);
    write_all(&to, b"\n");
}

// A number's digits, by `write_all` and no `print!`, here and in the other replays: that gives up on a line after some
// writes that signals interrupt. Each has its own, since a public one of stdio would have nothing to promise.
fn say_decimal(to: Stdout, n: u64) {
    let mut digits = [0u8; 20];
    let k = io::decimal(n, &mut digits);
    write_all(&to, &digits[..k]);
}

// A number and a space.
fn say_number(to: Stdout, n: u64) {
    say_decimal(to, n);
    write_all(&to, b" ");
}

// The places after a tree's words and after its text, and the bytes lent.
fn say_text(to: Stdout, text: Option<Pos>, out: &[u8]) {
    if let Some(Pos { next, to: end }) = text {
        say_number(to, next as u64);
        say_number(to, end as u64);
        say_bytes(to, out);
    } else {
        say_bytes(to, b"broken");
    }
}

// Measures the text, which writes nothing, and then writes it.
fn say_tree(to: Stdout, rows: &[u64], words: &[u64], out: &mut [u8]) {
    out.fill(FILLED);
    let measured = write_tree(rows, words, 0, out, true, 0);
    say_text(to, measured, out);
    let written = write_tree(rows, words, 0, out, false, 0);
    say_text(to, written, out);
}

// How many bytes an answer's text has, or by which number it is refused, and the bytes lent.
fn say_answer(to: Stdout, rows: &[u64], words: &[u64], out: &mut [u8]) {
    out.fill(FILLED);
    match print(rows, words, out) {
        Ok(n) => say_number(to, n as u64),
        Err(refusal) => {
            write_all(&to, b"refused ");
            say_number(to, u64::from(refusal));
        }
    }
    say_bytes(to, out);
}

// ---- lines of the list

// The words of a tree or an answer's rows, and then how many bytes are lent.
fn say_words(to: Stdout, answer: bool, rows: &[u64], words: &[u64], out: &mut [u8]) {
    let Some((room, words)) = words.split_last() else {
        return;
    };
    let room = *room as usize;
    if room > out.len() {
        return;
    }
    if answer {
        say_answer(to, rows, words, &mut out[..room]);
    } else {
        say_tree(to, rows, words, &mut out[..room]);
    }
}

fn say_line(to: Stdout, line: &[u8], rows: &[u64]) {
    let mut words = [0u64; 16384];
    let mut out = [0u8; 4096];
    let n = read_words(line, &mut words);
    say_words(to, line.starts_with(&[ANSWER]), rows, &words[..n], &mut out);
}

// The first line has the node rows.
fn replay(to: Stdout, list: &[u8]) {
    let Some(end) = list.iter().position(|b| *b == b'\n') else {
        return;
    };
    let mut rows = [0u64; 700];
    let n = read_words(&list[..end], &mut rows);
    for line in list[end + 1..].split(|b| *b == b'\n') {
        say_line(to, line, &rows[..n]);
    }
}

fn main(rt: HostRuntime) {
    let mut list = [0u8; 262144];
    let n = read_front(rt.stdin(), &mut list);
    replay(rt.stdout(), &list[..n]);
}
