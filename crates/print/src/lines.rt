// An answer's text line by line: the line of a let or of a result from its rows, and where the next begins. A flat
// answer can have more text than any array holds, and each of its lines is short, so a program prints them one after
// another. And the line that a program prints for a refusal.
ghost use Rattle.std.specs.Prelude.{◌≡◌, true, false, ◌+◌, ◌<◌, length, get_or};
ghost use Rattle.fmt.specs.emit.Writing.{Writes};
ghost use Rattle.fmt.specs.shapes.Places.{Stands};
ghost use Rattle.print.specs.lines.Refusal.{refusal_text};
ghost use Rattle.print.specs.lines.Line.{starts_line, line_of, line_answer, bytes_left, opening, closing, Wrote};

use crate::answerwriter::let_opening;
use fmt::checked::tree_ok;
use fmt::writer::{Pos, expression};
use words::fault::Fault;
use words::layout::{CLASSES, KINDS, LET, LET_CLASS, RESULT};

// How many bytes the line has, and the place of the row after it.
#[derive(Clone, Copy, Debug, PartialEq, Eq)]
pub struct Line {
    pub bytes: usize,
    pub next: usize,
}

fn begins(answer: &[u64], at: usize) -> bool
    ensures { result ≡ starts_line (get_or answer.now at 0) }
{
    if at >= answer.len() {
        return false;
    }
    let w = answer[at];
    w == RESULT || w % KINDS == LET && w / KINDS % CLASSES == LET_CLASS
}

fn put_opening(rows: &[u64], out: &mut [u8], dry: bool, w: u64) -> usize
    ensures { Writes dry out.old 0 (opening rows.now w) out.new result }
{
    if w == RESULT {
        return fmt::emit::place(out, 0);
    }
    let_opening(rows, out, dry, 0, w / KINDS)
}

fn put_closing(out: &mut [u8], dry: bool, to: usize, w: u64) -> usize
    ensures { Writes dry out.old to (closing w) out.new result }
{
    if w == RESULT {
        return fmt::emit::put_bytes(out, dry, to, b"\n");
    }
    fmt::emit::put_bytes(out, dry, to, b";\n")
}

// The line of the row at `at`, from the start of `out`; where `dry` it is only measured.
fn write_line(rows: &[u64], answer: &[u64], at: usize, out: &mut [u8], dry: bool) -> Pos
    requires at_in_bounds { (at < length answer.now) × (true ≡ starts_line (get_or answer.now at 0)) }
    requires stands { Stands rows.now answer.now (at + 1) }
    ensures { Wrote rows.now answer.now at dry out.old out.new result.next result.to }
{
    let w = answer[at];
    let start = put_opening(rows, out, dry, w);
    let p = expression(rows, answer, at + 1, out, dry, start);
    let end = put_closing(out, dry, p.to, w);
    Pos {
        next: p.next,
        to: end,
    }
}

// The line of the let or the result whose row stands at `at`. Broken: none stands there, or no tree after it that can
// be written. Where there is none, or `out` is too short for it, nothing is written.
pub fn line_at(rows: &[u64], answer: &[u64], at: usize, out: &mut [u8]) -> Result<Line, Fault>
    ensures { (result ≡ line_answer (line_of rows.now answer.now at) (length out.old))
        × (out.new ≡ bytes_left (line_of rows.now answer.now at) out.old) }
{
    if !begins(answer, at) {
        return Err(Fault::Broken);
    }
    let Some(_) = tree_ok(rows, answer, at + 1) else {
        return Err(Fault::Broken);
    };
    let measured = write_line(rows, answer, at, out, true);
    if measured.to > out.len() {
        return Err(Fault::NoRoom);
    }
    let written = write_line(rows, answer, at, out, false);
    Ok(Line {
        bytes: written.to,
        next: written.next,
    })
}

// The line for a refusal, by 01's number and the record: as much of it as there is room for, and the place after it. Its
// contract holds of every number, so it takes one and no `Refusal`.
pub fn refusal_line(number: u64, record: u64, out: &mut [u8]) -> usize
    ensures { Writes false out.old 0 (refusal_text number «record») out.new result }
{
    let a = fmt::emit::put_bytes(out, false, 0, b"refused ");
    let b = fmt::emit::put_decimal(out, false, a, number);
    let c = fmt::emit::put_bytes(out, false, b, b" ");
    let d = fmt::emit::put_decimal(out, false, c, record);
    fmt::emit::put_bytes(out, false, d, b"\n")
}
