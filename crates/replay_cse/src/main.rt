// Prints what `csesheet` prints for stored sheets. Standard input has a sheet on each line, a slash for each CRLF, and
// a line `# N` stands before what is printed for the sheet on line N: its flat answer, or the refusal. The file
// `stdout` has what the source gives for these sheets (compare/replays/main.rs).
#![tactic(auto)]

ghost use Rattle.std.specs.Prelude.{◌≤◌, length};

use flat_sheet::{Flat, flat_sheet};
use print::lines::{line_at, refusal_line};
use std::io::Stdout;
use stdio::{read_front, write_all};

// Stands for a CRLF in a sheet.
const SLASH: u8 = b'/';

// ---- what is printed for a sheet. That a write failed has nobody to tell.

fn say(to: Stdout, out: &[u8], n: usize) {
    if n <= out.len() {
        write_all(&to, &out[..n]);
    }
}

fn say_refused(to: Stdout, number: u64, record: u64) {
    let mut out = [0u8; 128];
    let n = refusal_line(number, record, &mut out);
    say(to, &out, n);
}

// The lines of an answer, one after another.
fn say_lines(to: Stdout, rows: &[u64], answer: &[u64]) {
    let mut out = [0u8; 65536];
    let mut at = 0;
    // No `for`: a line has as many rows as its tree has nodes, and tells where the next begins.
    while at < answer.len() {
        let Ok(line) = line_at(rows, answer, at, &mut out) else {
            return;
        };
        say(to, &out, line.bytes);
        at = line.next;
    }
}

fn say_sheet(to: Stdout, sheet: &[u8]) {
    let mut rows = [0u64; 35840];
    let mut roots = [0u64; 64];
    let mut work = [0u64; 65536];
    let mut text = [0u8; 131072];
    let mut table = [0u64; 67328];
    let answer = flat_sheet(
        sheet, &mut rows, &mut roots, &mut work, &mut text, &mut table,
    );
    match answer {
        Ok(flat) => say_lines(to, &rows[..flat.rows], &table[..flat.answer]),
        Err(refused) => say_refused(to, u64::from(refused.refusal), refused.record),
    }
}

// ---- lines of the list

// The bytes of a line's sheet: how many there are. Those past the room for them are left out.
fn put_sheet(line: &[u8], sheet: &mut [u8]) -> usize
    ensures { result ≤ length sheet.new }
{
    let mut n = 0;
    for b in line {
        if sheet.len() - n < 2 {
            return n;
        }
        if *b == SLASH {
            sheet[n..n + 2].copy_from_slice(b"\r\n");
            n += 2;
        } else {
            sheet[n] = *b;
            n += 1;
        }
    }
    n
}

// A number's digits, by `write_all` and no `print!`, here and in the other replays: that gives up on a line after some
// writes that signals interrupt. Each has its own, since a public one of stdio would have nothing to promise.
fn say_decimal(to: Stdout, n: u64) {
    let mut digits = [0u8; 20];
    let k = io::decimal(n, &mut digits);
    write_all(&to, &digits[..k]);
}

fn say_line(to: Stdout, number: usize, line: &[u8]) {
    write_all(&to, b"# ");
    say_decimal(to, number as u64);
    write_all(&to, b"\n");
    let mut sheet = [0u8; 65536];
    let n = put_sheet(line, &mut sheet);
    say_sheet(to, &sheet[..n]);
}

fn replay(to: Stdout, list: &[u8]) {
    for (i, line) in list.split_inclusive(|b| *b == b'\n').enumerate() {
        say_line(to, i + 1, line.strip_suffix(b"\n").unwrap_or(line));
    }
}

fn main(rt: HostRuntime) {
    let mut list = [0u8; 65536];
    let n = read_front(rt.stdin(), &mut list);
    replay(rt.stdout(), &list[..n]);
}
