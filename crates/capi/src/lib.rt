// What programs in other languages call. A slice goes in as a pointer and a length; an answer comes back as a number,
// and its values in a slice that the caller lends, since an enum can't pass: each Result and Option is taken apart
// here, for the C interface.
#![tactic(auto)]

ghost use Rattle.std.specs.Prelude.{◌≡◌, true, false, ◌&&◌, ◌≤◌, length};
ghost use Rattle.spec_sheet.specs.Call.{load_call};
ghost use Rattle.spec_cse.specs.Call.{extract_call, table_after};
ghost use Rattle.cse_flat.specs.Answers.{extraction_answer, told};
ghost use Rattle.spec_cse.specs.AnswerRows.{no_deeper};
ghost use Rattle.spec_program.specs.Print.{print_call, buffer_after};
ghost use Rattle.print.specs.Printing.{printed};
ghost use Rattle.fmt.specs.writer.Answers.{write_answer};
ghost use Rattle.replace.specs.Answers.{Leaves};
ghost use Rattle.spec_rewrite.specs.Rewrite.{replace_divisor, replace_outside_arms};
ghost use Rattle.capi.specs.Loads.{Loads};
ghost use Rattle.capi.specs.Extracts.{extracted_number, extracted_answer, Extracts};
ghost use Rattle.capi.specs.Prints.{Prints};
ghost use Rattle.capi.specs.Texts.{text_by, Texts};
ghost use Rattle.capi.specs.Replaces.{replace_call, replaced_number, replaced_answer, Replaces};
ghost use Rattle.capi.specs.Rewrites.{rewrite_call, Rewrote, rewritten_number, rewritten_answer, Rewrites};

use cse_flat::{Extracted, cse};
use cse_scoped::cse_scoped;
use fmt::writer::{Pos, write_tree};
use load::load;
use print::depth::no_deeper;
use print::print;
use refusal::Refusal;
use replace::ReplaceError;
use replace::divisor::replace_divisor;
use replace::outside::replace_outside_arms;
use replace::unchanged::replace_or_leave;
use words::fault::Fault;

// The numbers that are returned where nothing is written: for words that are no trees, for too few places, and for an
// answer without room for its values. 01 has no such numbers.
const BROKEN: u64 = 253;

const NO_ROOM: u64 = 254;

const NO_ANSWER: u64 = 255;

// Load. 0 where the sheet is loaded: answer[0] is how many rows it has and answer[1] how many roots. Otherwise 01's
// number, and answer[0] is the record.
#[unsafe(no_mangle)]
pub extern "C" fn cse_load(
    sheet: &[u8],
    rows: &mut [u64],
    roots: &mut [u64],
    answer: &mut [u64],
) -> u64
    ensures { Loads (load_call (length rows.old) (length roots.old) sheet.now) rows.old roots.old answer.old result rows.new roots.new answer.new }
{
    if answer.len() < 2 {
        return NO_ANSWER;
    }
    match load(sheet, rows, roots) {
        Ok(table) => {
            answer[0] = table.rows as u64;
            answer[1] = table.roots as u64;
            0
        }
        Err(refused) => {
            answer[0] = refused.record;
            refused.refusal.into()
        }
    }
}

// An extraction as a number; answer[0] is how many rows it has in the table and answer[1] the extraction count.
fn extract_told(got: Result<Extracted, Refusal>, answer: &mut [u64]) -> u64
    requires { 2 ≤ length answer.old }
    ensures { (result ≡ extracted_number (told got)) × (answer.new ≡ extracted_answer (told got) answer.old) }
{
    match got {
        Ok(extracted) => {
            answer[0] = extracted.rows as u64;
            answer[1] = extracted.count as u64;
            0
        }
        Err(refusal) => refusal.into(),
    }
}

// Extract, flat. 0 where there is an answer: answer[0] is how many rows it has in the table and answer[1] the
// extraction count. Otherwise 01's number: 8, 9, 10 or 12. What is left in `work` and `text` is free.
#[unsafe(no_mangle)]
pub extern "C" fn cse_extract(
    rows: &[u64],
    roots: &[u64],
    work: &mut [u64],
    text: &mut [u8],
    table: &mut [u64],
    answer: &mut [u64],
) -> u64
    ensures { Extracts (extraction_answer (extract_call false (length work.old) (length text.old) rows.now roots.now (length table.old)))
        (table_after (extract_call false (length work.old) (length text.old) rows.now roots.now (length table.old)) table.old)
        table.old answer.old result table.new answer.new }
{
    if answer.len() < 2 {
        return NO_ANSWER;
    }
    let got = cse(rows, roots, work, text, table);
    extract_told(got, answer)
}

// Extract, scoped: as the flat form, and its numbers may be 11 and 23 too.
#[unsafe(no_mangle)]
pub extern "C" fn cse_extract_scoped(
    rows: &[u64],
    roots: &[u64],
    work: &mut [u64],
    text: &mut [u8],
    table: &mut [u64],
    answer: &mut [u64],
) -> u64
    ensures { Extracts (extraction_answer (extract_call true (length work.old) (length text.old) rows.now roots.now (length table.old)))
        (table_after (extract_call true (length work.old) (length text.old) rows.now roots.now (length table.old)) table.old)
        table.old answer.old result table.new answer.new }
{
    if answer.len() < 2 {
        return NO_ANSWER;
    }
    let got = cse_scoped(rows, roots, work, text, table);
    extract_told(got, answer)
}

// The text of an answer from its rows. 0 where it was written: said[0] is how many bytes it has. Otherwise 01's number,
// 13 or 14.
#[unsafe(no_mangle)]
pub extern "C" fn cse_print(rows: &[u64], answer: &[u64], out: &mut [u8], said: &mut [u64]) -> u64
    ensures { Prints (printed (print_call rows.now answer.now (length out.old)))
        (buffer_after (print_call rows.now answer.now (length out.old)) out.old)
        out.old said.old result out.new said.new }
{
    if said.len() < 1 {
        return NO_ANSWER;
    }
    match print(rows, answer, out) {
        Ok(n) => {
            said[0] = n as u64;
            0
        }
        Err(reason) => reason.into(),
    }
}

// The text of the tree at a place of words that stand no deeper than an answer's: the writer calls itself down the
// tree.
fn text_no_deeper(
    rows: &[u64],
    tokens: &[u64],
    at: usize,
    out: &mut [u8],
    dry: bool,
    to: usize,
) -> Option<Pos>
    ensures { (result ≡ (text_by (no_deeper tokens.now) (write_answer rows.now tokens.now at dry out.old to) out.old).answer)
        × (out.new ≡ (text_by (no_deeper tokens.now) (write_answer rows.now tokens.now at dry out.old to) out.old).bytes) }
{
    if !no_deeper(tokens) {
        return None;
    }
    write_tree(rows, tokens, at, out, dry, to)
}

// The text of the tree at a place of some words. 0 where there is such a tree: answer[0] is the place after its words,
// answer[1] the place after its text.
#[unsafe(no_mangle)]
pub extern "C" fn cse_text(
    rows: &[u64],
    tokens: &[u64],
    at: usize,
    out: &mut [u8],
    dry: bool,
    to: usize,
    answer: &mut [u64],
) -> u64
    ensures { Texts (text_by (no_deeper tokens.now) (write_answer rows.now tokens.now at dry out.old to) out.old)
        out.old answer.old result out.new answer.new }
{
    if answer.len() < 2 {
        return NO_ANSWER;
    }
    match text_no_deeper(rows, tokens, at, out, dry, to) {
        Some(end) => {
            answer[0] = end.next as u64;
            answer[1] = end.to as u64;
            0
        }
        None => BROKEN,
    }
}

// What `replace` answers as a number; answer[0] is how many words were written.
#[tactic(auto, unfolding(crate::specs::Replaces::replaced_number, crate::specs::Replaces::replaced_answer))]
fn replace_told(got: Result<usize, ReplaceError>, answer: &mut [u64]) -> u64
    requires { 1 ≤ length answer.old }
    ensures { (result ≡ replaced_number got) × (answer.new ≡ replaced_answer got answer.old) }
{
    match got {
        Ok(n) => {
            answer[0] = n as u64;
            0
        }
        Err(ReplaceError::Refused) => Refusal::BadCoefficient.into(),
        Err(ReplaceError::Broken) => BROKEN,
        Err(ReplaceError::NoRoom) => NO_ROOM,
    }
}

// Whether words and what is sought in them stand no deeper than an answer's: the rewritings call themselves down the
// words.
fn both_no_deeper(tokens: &[u64], part: &[u64]) -> bool
    ensures { result ≡ (no_deeper tokens.now && no_deeper part.now) }
{
    no_deeper(tokens) && no_deeper(part)
}

fn replace_no_deeper(
    tokens: &[u64],
    target: &[u64],
    name: u64,
    places: &mut [u64],
    out: &mut [u64],
) -> Result<usize, ReplaceError>
    ensures { Leaves (replace_call tokens.now target.now name (length places.old) out.old) result out.new }
{
    if !both_no_deeper(tokens, target) {
        return Err(ReplaceError::Broken);
    }
    replace_or_leave(tokens, target, name, places, out)
}

// This and the next stay two functions: one over a closure is no plainer, since its contract would have to speak of all
// that the closure answers and writes.
fn divisor_no_deeper(
    tokens: &[u64],
    divisor: &[u64],
    name: u64,
    out: &mut [u64],
) -> Result<usize, Fault>
    ensures { Rewrote (rewrite_call replace_divisor tokens.now divisor.now name out.old) result out.new }
{
    if !both_no_deeper(tokens, divisor) {
        return Err(Fault::Broken);
    }
    replace_divisor(tokens, divisor, name, out)
}

fn outside_no_deeper(
    tokens: &[u64],
    target: &[u64],
    name: u64,
    out: &mut [u64],
) -> Result<usize, Fault>
    ensures { Rewrote (rewrite_call replace_outside_arms tokens.now target.now name out.old) result out.new }
{
    if !both_no_deeper(tokens, target) {
        return Err(Fault::Broken);
    }
    replace_outside_arms(tokens, target, name, out)
}

// Each equal tree becomes a symbol, and so do the target's factors in a product. `places` has three words for each of
// the tokens; what is left there is free.
#[unsafe(no_mangle)]
pub extern "C" fn cse_replace(
    tokens: &[u64],
    target: &[u64],
    name: u64,
    places: &mut [u64],
    out: &mut [u64],
    answer: &mut [u64],
) -> u64
    ensures { Replaces (replace_call tokens.now target.now name (length places.old) out.old)
        out.old answer.old result out.new answer.new }
{
    if answer.len() < 1 {
        return NO_ANSWER;
    }
    let got = replace_no_deeper(tokens, target, name, places, out);
    replace_told(got, answer)
}

// A rewriting's answer as a number; answer[0] is how many words were written.
#[tactic(auto, unfolding(crate::specs::Rewrites::rewritten_number, crate::specs::Rewrites::rewritten_answer))]
fn rewrite_told(got: Result<usize, Fault>, answer: &mut [u64]) -> u64
    requires { 1 ≤ length answer.old }
    ensures { (result ≡ rewritten_number got) × (answer.new ≡ rewritten_answer got answer.old) }
{
    match got {
        Ok(n) => {
            answer[0] = n as u64;
            0
        }
        Err(Fault::Broken) => BROKEN,
        Err(Fault::NoRoom) => NO_ROOM,
    }
}

// Each division by a tree becomes a product with a symbol.
#[unsafe(no_mangle)]
pub extern "C" fn cse_replace_divisor(
    tokens: &[u64],
    divisor: &[u64],
    name: u64,
    out: &mut [u64],
    answer: &mut [u64],
) -> u64
    ensures { Rewrites (rewrite_call replace_divisor tokens.now divisor.now name out.old) out.old answer.old result out.new answer.new }
{
    if answer.len() < 1 {
        return NO_ANSWER;
    }
    let got = divisor_no_deeper(tokens, divisor, name, out);
    rewrite_told(got, answer)
}

// Each equal tree outside the arms of switches becomes a symbol.
#[unsafe(no_mangle)]
pub extern "C" fn cse_replace_outside_arms(
    tokens: &[u64],
    target: &[u64],
    name: u64,
    out: &mut [u64],
    answer: &mut [u64],
) -> u64
    ensures { Rewrites (rewrite_call replace_outside_arms tokens.now target.now name out.old) out.old answer.old result out.new answer.new }
{
    if answer.len() < 1 {
        return NO_ANSWER;
    }
    let got = outside_no_deeper(tokens, target, name, out);
    rewrite_told(got, answer)
}
