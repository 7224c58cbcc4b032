// The program `csescoped`, the twin of `csesheet` for the scoped answer (01, "Sheet and printing"): a sheet on standard
// input, its answer on standard output, or one line for a refusal. A sheet that could not be read to its end has no
// answer. It lends 131,072 rows and 524,288 bytes, and an answer that is longer is refused by 12 or 14:
// spec_program/specs/Program `csescoped`.
#![tactic(auto)]

ghost use Rattle.std.specs.Prelude.{◌≡◌, length};

mod sheet;

use crate::sheet::scoped_sheet;
use load::Refused;
use print::lines::refusal_line;
use std::io::{Stderr, Stdout};
use stdio::{read_sheet, say};

fn say_refused(to: Stdout, errors: Stderr, refused: Refused) {
    let mut out = [0u8; 128];
    let n = refusal_line(u64::from(refused.refusal), refused.record, &mut out);
    say(to, errors, b"csescoped", &out, n);
}

// Zeros for the text. That they are so many is proved for any number: to count half a million takes more stack than the
// check has.
fn zeros<const N: usize>() -> [u8; N]
    ensures { N ≡ length result }
{
    [0; N]
}

// All that is printed for a sheet.
fn say_sheet(to: Stdout, errors: Stderr, sheet: &[u8]) {
    let mut rows = [0u64; 35840];
    let mut roots = [0u64; 64];
    let mut work = [0u64; 65536];
    let mut text = [0u8; 131072];
    let mut table = [0u64; 131072];
    let mut out = zeros::<524288>();
    let said = scoped_sheet(
        sheet, &mut rows, &mut roots, &mut work, &mut text, &mut table, &mut out,
    );
    match said {
        Ok(n) => {
            say(to, errors, b"csescoped", &out, n);
        }
        Err(refused) => say_refused(to, errors, refused),
    }
}

fn main(rt: HostRuntime) {
    let mut sheet = [0u8; 65536];
    if let Ok(n) = read_sheet(rt.stdin(), rt.stderr(), b"csescoped", &mut sheet) {
        say_sheet(rt.stdout(), rt.stderr(), &sheet[..n]);
    }
}
