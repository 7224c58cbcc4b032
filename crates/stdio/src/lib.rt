// Standard input and output of the programs, by std's calls that tell of failure: a sheet that was read in part has no
// answer, and that an answer was not written whole is told. No contract can say which bytes come or go; these say that
// no more are counted than were lent.
#![tactic(auto)]

ghost use Rattle.std.specs.Prelude.{◌≤◌, length};
ghost use Rattle.stdio.specs.Within.{Within};

use std::io::{Error, ErrorKind, Print, Read, Result, Stderr, Stdin, Stdout};

// A call that a signal interrupted has moved nothing, and is made again.
fn interrupted(e: &Error) -> bool {
    e.kind() == ErrorKind::Interrupted
}

// One read. A proved loop has to end, so its turns are counted, and are as many as no run uses up.
fn read_some(input: Stdin, buffer: &mut [u8]) -> Result<usize>
    ensures { Within result (length buffer.old) }
{
    for _ in 0..u64::MAX {
        match (&input).read(buffer) {
            Err(e) if interrupted(&e) => {}
            moved => return moved,
        }
    }
    Err(Error::from(ErrorKind::Interrupted))
}

// One write, likewise. The two stay apart: one function over a closure is no plainer, since it would have to be told what
// the closure lends, and that it lends as much in each turn.
fn write_some<P: Print>(to: &P, bytes: &[u8]) -> Result<usize>
    ensures { Within result (length bytes.now) }
{
    for _ in 0..u64::MAX {
        match to.write_some(bytes) {
            Err(e) if interrupted(&e) => {}
            moved => return moved,
        }
    }
    Err(Error::from(ErrorKind::Interrupted))
}

// Reads until the input ends, all that is lent is full, or a read fails, and tells how many bytes had come by then.
pub fn read_front(input: Stdin, buffer: &mut [u8]) -> usize
    ensures { result ≤ length buffer.new }
{
    let mut done = 0;
    // No `for`: each turn reads as many bytes as have come.
    while done < buffer.len() {
        match (&input).read(&mut buffer[done..]) {
            Ok(0) => return done,
            Ok(more) => done += more,
            Err(_) => return done,
        }
    }
    done
}

// Reads until the input ends or all that is lent is full.
fn read_all(input: Stdin, buffer: &mut [u8]) -> Result<usize>
    ensures { Within result (length buffer.new) }
{
    let mut done = 0;
    // No `for`: each turn reads as many bytes as have come.
    while done < buffer.len() {
        let more = read_some(input, &mut buffer[done..])?;
        if more == 0 {
            return Ok(done);
        }
        done += more;
    }
    Ok(done)
}

// Writes all, or stops at the first write that fails or takes nothing, and tells whether all was written: what the error
// was, no caller asks.
pub fn write_all<P: Print>(to: &P, bytes: &[u8]) -> bool {
    let mut done = 0;
    // No `for`: each turn writes as many bytes as are taken.
    while done < bytes.len() {
        let Ok(put) = write_some(to, &bytes[done..]) else {
            return false;
        };
        if put == 0 {
            return false;
        }
        done += put;
    }
    true
}

// A line on standard error. Where that fails too there is nobody left to tell.
fn complain(errors: Stderr, program: &[u8], what: &[u8]) {
    write_all(&errors, program);
    write_all(&errors, what);
}

// Standard input to its end, or so much of it as fits. Where a read fails, a line on standard error tells of it, and the
// bytes that came before count for nothing.
pub fn read_sheet(input: Stdin, errors: Stderr, program: &[u8], sheet: &mut [u8]) -> Result<usize>
    ensures { Within result (length sheet.new) }
{
    let read = read_all(input, sheet);
    if read.is_err() {
        complain(errors, program, b": the sheet could not be read\n");
    }
    read
}

// Writes the first `n` bytes of a text to standard output and answers true. Where that fails, a line on standard error
// tells of it, and the caller should write no more.
pub fn say(out: Stdout, errors: Stderr, program: &[u8], text: &[u8], n: usize) -> bool {
    let done = n <= text.len() && write_all(&out, &text[..n]);
    if !done {
        complain(errors, program, b": the answer could not be written\n");
    }
    done
}
