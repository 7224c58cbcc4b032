// Node numbers and constants as a sheet writes them. Each function takes any bytes.
ghost use Rattle.std.specs.Prelude.{◌≡◌, ◌+◌, ◌-◌, ◌*◌, ◌^◌, ◌≤◌, min};
ghost use Rattle.spec_sheet.specs.Sheet.{number, below_limit, minus, constant};
ghost use Rattle.load.specs.numerals.Values.{digits_number, capped_at, capped, number_answer, constant_answer};

const MINUS: u8 = b'-';

const ZERO: u8 = b'0';

// Where reading a number stops: no table has so many rows, and no constant is so large.
const MANY_ROWS: u64 = 1000000;

const LIMIT: u64 = 1000000000000000;

// A sign, 1 for minus, and a size.
#[derive(Clone, Copy, Debug, PartialEq, Eq)]
pub struct Constant {
    pub sign: u64,
    pub size: u64,
}

// A number with one digit more, stopped at the cap.
fn next_value(value: u64, b: u8, cap: u64) -> u64
    requires { (value ≤ cap) × ((cap ≤ 10 ^ 15) × ((48 ≤ b) × (b ≤ 57))) }
    ensures { result ≡ min (value * 10 + (b - 48)) cap }
{
    (value * 10 + u64::from(b - ZERO)).min(cap)
}

// Digits of any length, leading zeros let in; the value stops at the cap.
fn digits_value(s: &[u8], cap: u64) -> Option<u64>
    requires { cap ≤ 10 ^ 15 }
    ensures { result ≡ number_answer (capped_at cap (digits_number s.now)) }
{
    let mut value = 0;
    for b in s {
        if !b.is_ascii_digit() {
            return None;
        }
        value = next_value(value, *b, cap);
    }
    Some(value)
}

// Digits without leading zeros.
fn number_below(s: &[u8], cap: u64) -> Option<u64>
    requires { cap ≤ 10 ^ 15 }
    ensures { result ≡ number_answer (capped_at cap (number s.now)) }
{
    if s.is_empty() {
        return None;
    }
    if s.len() > 1 && s[0] == ZERO {
        return None;
    }
    digits_value(s, cap)
}

pub fn node_number(s: &[u8]) -> Option<u64>
    ensures { result ≡ number_answer (capped (number s.now)) }
{
    number_below(s, MANY_ROWS)
}

// A constant after its minus sign: there is no minus zero.
fn negative(s: &[u8]) -> Option<Constant>
    ensures { result ≡ constant_answer (below_limit minus (number s.now)) }
{
    let size = number_below(s, LIMIT)?;
    if size == 0 || size >= LIMIT {
        return None;
    }
    Some(Constant { sign: 1, size })
}

pub fn constant_field(s: &[u8]) -> Option<Constant>
    ensures { result ≡ constant_answer (constant s.now) }
{
    if s.is_empty() {
        return None;
    }
    if s[0] == MINUS {
        return negative(&s[1..]);
    }
    let size = number_below(s, LIMIT)?;
    if size >= LIMIT {
        return None;
    }
    Some(Constant { sign: 0, size })
}
