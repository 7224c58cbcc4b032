// The parts of a sheet (01, "Sheet and printing"), for any bytes: the bytes that a record may hold, where its first
// field and where the record itself ends, and the bytes of a name as words.
ghost use Rattle.std.specs.Prelude.{◌≡◌, ◌&&◌, ◌+◌, ◌<◌, eqb, length, get_or};
ghost use Rattle.spec_tree.specs.Bytes.{every};
ghost use Rattle.spec_sheet.specs.Sheet.{plain};
ghost use Rattle.load.specs.fields.Comma.{comma_at};
ghost use Rattle.load.specs.fields.Answers.{split_answer};
ghost use Rattle.load.specs.fields.End.{record_end};
ghost use Rattle.load.specs.fields.Copy.{has_room, copied};

pub const COMMA: u8 = b',';

const CR: u8 = b'\r';

const LF: u8 = b'\n';

// A symbol's name has at most so many bytes.
const NAME: usize = 32;

#[tactic(auto, unfolding(spec_sheet::specs::Sheet::plain))]
fn is_plain(b: u8) -> bool
    ensures { result ≡ plain b }
{
    !matches!(b, b'"' | b'\r' | b'\n')
}

// No quote, CR or LF.
pub fn all_plain(s: &[u8]) -> bool
    ensures { result ≡ every plain s.now }
{
    s.iter().all(|b| is_plain(*b))
}

// The place of the first comma.
pub fn first_comma(s: &[u8]) -> Option<usize>
    ensures { result ≡ split_answer (comma_at s.now) }
{
    s.iter().position(|b| *b == COMMA)
}

// CR and LF.
fn ends_at(s: &[u8], i: usize) -> bool
    requires { i + 1 < length s.now }
    ensures { result ≡ (eqb (get_or s.now i 0) 13 && eqb (get_or s.now (i + 1) 0) 10) }
{
    s[i] == CR && s[i + 1] == LF
}

// Where the record that starts at a place ends: at its CRLF or at the end of the sheet. From a place past the sheet it
// is the end too.
pub fn record_end(s: &[u8], at: usize) -> usize
    ensures { result ≡ record_end s.now at }
{
    if at >= s.len() {
        return s.len();
    }
    for i in at..s.len() - 1 {
        if ends_at(s, i) {
            return i;
        }
    }
    s.len()
}

// A name's bytes as words in the front of `out`. Where they are too many nothing is written.
pub fn copy_bytes(s: &[u8], out: &mut [u64]) -> bool
    ensures { (result ≡ has_room s.now out.old) × (out.new ≡ copied s.now out.old) }
{
    if s.len() > NAME || s.len() > out.len() {
        return false;
    }
    for (i, b) in s.iter().enumerate() {
        out[i] = u64::from(*b);
    }
    true
}
