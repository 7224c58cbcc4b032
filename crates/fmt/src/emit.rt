// Writers of bytes that never fail. Each takes the slice, the place to write at, and `dry`: where that is true nothing is written and only the place moves on, so
// that a text can be measured before it is written. A place past the end stays one after it. The three stay parameters, and are no struct with methods: the C
// interface lends them so (`cse_text`), and each call hands on the place that the one before it answers, which a method would hide.
ghost use Rattle.std.specs.Prelude.{◌≡◌, ◌∷◌, [], ◌+◌, min, length};
ghost use Rattle.spec_tree.specs.Bytes.{decimal, integer};
ghost use Rattle.spec_tree.specs.Tokens.{constant_at};
ghost use Rattle.fmt.specs.emit.Writing.{Writes};

// A place, or one after the end: where the empty text ends.
pub fn place(out: &[u8], to: usize) -> usize
    ensures { result ≡ min to (length out.now + 1) }
{
    to.min(out.len() + 1)
}

// One byte.
pub fn put(out: &mut [u8], dry: bool, to: usize, b: u8) -> usize
    ensures { Writes dry out.old to (b ∷ []) out.new result }
{
    if to >= out.len() {
        return out.len() + 1;
    }
    if !dry {
        out[to] = b;
    }
    to + 1
}

// The bytes of a text.
pub fn put_bytes(out: &mut [u8], dry: bool, to: usize, s: &[u8]) -> usize
    ensures { Writes dry out.old to s.now out.new result }
{
    let mut at = place(out, to);
    for b in s {
        at = put(out, dry, at, *b);
    }
    at
}

// A number's decimal digits: those of its tenth, and the last.
pub fn put_decimal(out: &mut [u8], dry: bool, to: usize, n: u64) -> usize
    ensures { Writes dry out.old to (decimal n) out.new result }
{
    if n < 10 {
        return put(out, dry, to, b'0' + n as u8);
    }
    let at = put_decimal(out, dry, to, n / 10);
    put(out, dry, at, b'0' + (n % 10) as u8)
}

// A constant by its code; the codes 0, 1, 2, 3 are those of 0, -1, 1, -2.
pub(crate) fn put_integer(out: &mut [u8], dry: bool, to: usize, code: u64) -> usize
    ensures { Writes dry out.old to (integer (constant_at code)) out.new result }
{
    if code % 2 == 0 {
        return put_decimal(out, dry, to, code / 2);
    }
    let at = put(out, dry, to, b'-');
    put_decimal(out, dry, at, code / 2 + 1)
}
