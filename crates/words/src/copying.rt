// Words copied from one slice to another, by a loop and not by the library's `copy_from_slice`: that is `memmove` where the
// compiler can't see that the two are apart, which what C links needs nowhere else.
ghost use Rattle.std.specs.Prelude.{◌≡◌, ◌++◌, ◌+◌, ◌≤◌, length, take, drop};

// Copies words to the front of others.
pub fn copy(s: &[u64], out: &mut [u64])
    requires { length s.now ≤ length out.old }
    ensures { out.new ≡ s.now ++ drop (length s.now) out.old }
{
    for (i, w) in s.iter().enumerate() {
        out[i] = *w;
    }
}

// Copies words to a place of others.
pub fn put(words: &[u64], at: usize, out: &mut [u64])
    requires { at + length words.now ≤ length out.old }
    ensures { out.new ≡ take at out.old ++ (words.now ++ drop (at + length words.now) out.old) }
{
    for (k, w) in words.iter().enumerate() {
        out[at + k] = *w;
    }
}
