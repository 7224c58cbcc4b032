// The program `csesheet` (01, "Sheet and printing"): a sheet on standard input, its flat answer on standard output, or
// one line for a refusal. A sheet that could not be read to its end has no answer. What is lent is long enough for
// every sheet, where need be after a try with less: the table for the rows of any flat answer, `out` for any line.
#![tactic(auto)]

use flat_sheet::flat_sheet;
use print::lines::{line_at, refusal_line};
use print::print;
use refusal::Refusal;
use std::io::{Stderr, Stdout};
use stdio::{read_sheet, say};

fn say_refused(to: Stdout, errors: Stderr, number: u64, record: u64) {
    let mut out = [0u8; 128];
    let n = refusal_line(number, record, &mut out);
    say(to, errors, b"csesheet", &out, n);
}

// The lines of an answer, one after another, as long as each can be written.
fn say_lines(to: Stdout, errors: Stderr, rows: &[u64], answer: &[u64]) {
    let mut out = [0u8; 65536];
    let mut at = 0;
    // No `for`: a line has as many rows as its tree has nodes, and tells where the next begins.
    while at < answer.len() {
        let Ok(line) = line_at(rows, answer, at, &mut out) else {
            return;
        };
        if !say(to, errors, b"csesheet", &out, line.bytes) {
            return;
        }
        at = line.next;
    }
}

// All that is printed for a sheet, with room for the rows of any answer, line by line.
fn say_any(to: Stdout, errors: Stderr, sheet: &[u8]) {
    let mut rows = [0u64; 35840];
    let mut roots = [0u64; 64];
    let mut work = [0u64; 65536];
    let mut text = [0u8; 131072];
    let mut table = [0u64; 67328];
    let answer = flat_sheet(
        sheet, &mut rows, &mut roots, &mut work, &mut text, &mut table,
    );
    match answer {
        Ok(flat) => say_lines(to, errors, &rows[..flat.rows], &table[..flat.answer]),
        Err(refused) => say_refused(to, errors, u64::from(refused.refusal), refused.record),
    }
}

// The text of the answer, at once where it is short; otherwise all anew.
fn say_text(to: Stdout, errors: Stderr, sheet: &[u8], rows: &[u64], answer: &[u64]) {
    let mut out = [0u8; 16384];
    if let Ok(n) = print(rows, answer, &mut out) {
        say(to, errors, b"csesheet", &out, n);
    } else {
        say_any(to, errors, sheet);
    }
}

// All that is printed for a sheet, tried with room for few rows first, which are enough for nearly every answer. It
// stays apart from `say_any`: it lends less, and what each does with its answer differs, so one function of both by the
// length would choose again what to do.
fn say_few(to: Stdout, errors: Stderr, sheet: &[u8]) {
    let mut rows = [0u64; 35840];
    let mut roots = [0u64; 64];
    let mut work = [0u64; 65536];
    let mut text = [0u8; 131072];
    let mut table = [0u64; 4096];
    let answer = flat_sheet(
        sheet, &mut rows, &mut roots, &mut work, &mut text, &mut table,
    );
    match answer {
        Ok(flat) => say_text(to, errors, sheet, &rows[..flat.rows], &table[..flat.answer]),
        Err(refused) if refused.refusal == Refusal::TooManyRows => say_any(to, errors, sheet),
        Err(refused) => say_refused(to, errors, u64::from(refused.refusal), refused.record),
    }
}

// The long table takes longer to clear than a short sheet takes for all else, so it is lent only where the short one
// doesn't do, and to long sheets, which aren't worth two tries.
fn say_sheet(to: Stdout, errors: Stderr, sheet: &[u8]) {
    if sheet.len() > 16384 {
        say_any(to, errors, sheet);
    } else {
        say_few(to, errors, sheet);
    }
}

fn main(rt: HostRuntime) {
    let mut sheet = [0u8; 65536];
    if let Ok(n) = read_sheet(rt.stdin(), rt.stderr(), b"csesheet", &mut sheet) {
        say_sheet(rt.stdout(), rt.stderr(), &sheet[..n]);
    }
}
