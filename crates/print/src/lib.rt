// Printing an answer from its rows, for callers: 13 is decided first, then the text is measured, 14 decided, and the
// text written.
#![tactic(auto)]

mod answers;
mod answerwriter;
pub mod depth;
pub mod lines;

ghost use Rattle.std.specs.Prelude.{◌≡◌, length};
ghost use Rattle.spec_program.specs.Print.{print_call, buffer_after};
ghost use Rattle.print.specs.Printing.{printed, told};

use crate::answers::check_answer;
use crate::answerwriter::write_answer;
use refusal::Refusal;

// The answer's text, and how many bytes it has; or that the words are no answer's rows, or that the text is longer than
// the slice; refused, nothing is written.
pub fn print(rows: &[u64], answer: &[u64], out: &mut [u8]) -> Result<usize, Refusal>
    ensures { (told result ≡ printed (print_call rows.now answer.now (length out.old)))
        × (out.new ≡ buffer_after (print_call rows.now answer.now (length out.old)) out.old) }
{
    if !check_answer(rows, answer) {
        return Err(Refusal::BadAnswer);
    }
    let size = write_answer(rows, answer, out, true);
    if size > out.len() {
        return Err(Refusal::LongText);
    }
    Ok(write_answer(rows, answer, out, false))
}
