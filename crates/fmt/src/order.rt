// The order of texts (01, "Text", "Extraction"): by bytes, a proper prefix first; the later of two texts; and which of two trees among words comes first by its text.
// A text may be the beginning of a longer slice: a length past the slice's end counts as the slice's own.
ghost use Rattle.std.specs.Prelude.{◌≡◌, ◌≤◌, take, length};
ghost use Rattle.spec_tree.specs.text.Text.{before, later};
ghost use Rattle.fmt.specs.shapes.Places.{Stands};
ghost use Rattle.fmt.specs.order.Order.{text_here, both_long};

use crate::writer::expression;

// Whether s comes before t: at the first byte in which they differ, or where s ends and t goes on.
#[tactic(auto, using(crate::proofs::order::Comparing::library_before))]
pub fn before(s: &[u8], t: &[u8]) -> bool
    ensures { result ≡ before s.now t.now }
{
    s < t
}

fn beginning(s: &[u8], n: usize) -> &[u8]
    ensures { result.now ≡ take n s.now }
{
    &s[..n.min(s.len())]
}

// Whether b[..m] is later than a[..n]: what the reference that `later` hands back doesn't tell.
pub fn second_is_later(a: &[u8], n: usize, b: &[u8], m: usize) -> bool
    ensures { result ≡ before (take n a.now) (take m b.now) }
{
    before(beginning(a, n), beginning(b, m))
}

// The later of a[..n] and b[..m], as a part of the one that holds it; a[..n] if they are equal.
pub fn later<'a>(a: &'a [u8], n: usize, b: &'a [u8], m: usize) -> &'a [u8]
    ensures { result.now ≡ later (take n a.now) (take m b.now) }
{
    if second_is_later(a, n, b, m) {
        beginning(b, m)
    } else {
        beginning(a, n)
    }
}

// Whether the first comes before the second: then it comes before the later of the two.
fn first_before(first: &[u8], second: &[u8]) -> bool
    ensures { result ≡ before first.now second.now }
{
    let last = later(first, first.len(), second, second.len());
    before(first, last)
}

// Whether the text of the tree at i comes before that of the tree at j: trees that an answer may hold, whose texts fit together. They are written one after the
// other into `text`; what is left there is free.
pub fn before_at(rows: &[u64], tokens: &[u64], i: usize, j: usize, text: &mut [u8]) -> bool
    requires stands { Stands rows.now tokens.now i × Stands rows.now tokens.now j }
    requires j_in_bounds { both_long rows.now tokens.now i j ≤ length text.old }
    ensures { result ≡ before (text_here rows.now tokens.now i) (text_here rows.now tokens.now j) }
{
    let first = expression(rows, tokens, i, text, false, 0);
    let second = expression(rows, tokens, j, text, false, first.to);
    let texts = &text[..second.to];
    let (one, other) = texts.split_at(first.to);
    first_before(one, other)
}
