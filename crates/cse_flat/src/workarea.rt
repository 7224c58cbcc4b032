// 8 (01, "Turned down": Extract): whether the work area lent is shorter than its fixed length, which is the same for
// both forms.
ghost use Rattle.std.specs.Prelude.{◌≡◌, ◌||◌, ltb};
ghost use Rattle.spec_cse.specs.Call.{work_words, work_bytes};

// The work area's fixed length, in words of 64 bits and bytes of text.
const WORK_WORDS: usize = 65536;

const WORK_BYTES: usize = 131072;

// Of so many words and bytes.
pub fn is_short(words: usize, bytes: usize) -> bool
    ensures { result ≡ (ltb words work_words || ltb bytes work_bytes) }
{
    words < WORK_WORDS || bytes < WORK_BYTES
}
