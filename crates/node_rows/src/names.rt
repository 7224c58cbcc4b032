// The names of symbols: whether some words are one's bytes.
ghost use Rattle.std.specs.Prelude.{◌≡◌, ◌||◌};
ghost use Rattle.spec_tree.specs.Bytes.{every};
ghost use Rattle.spec_tree.specs.Symbol.{is_digit, is_letter, is_made, is_name};

fn is_digit(b: u64) -> bool
    ensures { result ≡ is_digit b }
{
    matches!(b, 48..=57)
}

fn is_letter(b: u64) -> bool
    ensures { result ≡ is_letter b }
{
    matches!(b, 65..=90 | 95 | 97..=122)
}

// A name has at most so many bytes.
const LONGEST: usize = 32;

// The letters and digits among the bytes below 64, and among the 64 after those, a bit for each.
const WORD_BYTES: [u64; 2] = [287948901175001088, 576460745995190270];

// Names are long, and their bytes are letters or digits in no order, so the ranges are not tried one after another.
fn is_word_byte(b: u64) -> bool
    ensures { result ≡ (is_letter b || is_digit b) }
{
    b < 128 && (WORD_BYTES[(b / 64) as usize] >> (b % 64)) % 2 == 1
}

fn all_digits(bytes: &[u64]) -> bool
    ensures { result ≡ every is_digit bytes.now }
{
    bytes.iter().all(|b| is_digit(*b))
}

fn all_word_bytes(bytes: &[u64]) -> bool
    ensures { result ≡ every (λ c. is_letter c || is_digit c) bytes.now }
{
    bytes.iter().all(|b| is_word_byte(*b))
}

// Whether a name is spelled like one that an answer makes.
#[tactic(auto, using(crate::proofs::names::Leaves::made_by, crate::proofs::names::Leaves::rest))]
fn is_made(name: &[u64]) -> bool
    ensures { result ≡ is_made name.now }
{
    name.len() > 3
        && name[0] == 95
        && name[1] == 95
        && matches!(name[2], 109 | 120)
        && all_digits(&name[3..])
}

#[tactic(auto, using(crate::proofs::names::Leaves::name_by, crate::proofs::names::Leaves::rest))]
pub fn is_name(name: &[u64]) -> bool
    ensures { result ≡ is_name name.now }
{
    if name.is_empty() || name.len() > LONGEST || !is_letter(name[0]) {
        return false;
    }
    all_word_bytes(&name[1..]) && !is_made(name)
}
