// A table of yes or no in lent words: a row has 2,048 places, 64 in each of its 32 words, the lowest bit of the first word first. Each function takes any words
// and numbers at all; a place outside the table is no.
ghost use Rattle.std.specs.Prelude.{◌≡◌, length};
ghost use Rattle.words.specs.bits.Bits.{inside, yes, with_yes};

const COLUMNS: usize = 2048;

// Words in a row, and places in a word.
const WORDS: usize = 32;

const PLACES: usize = 64;

// Whether a place is in a table of so many words. The row is tested by a division, so that no product is too large, and its words are taken away, so that no sum is.
fn is_inside(words: usize, row: usize, column: usize) -> bool
    ensures { result ≡ inside words row column }
{
    if column >= COLUMNS {
        return false;
    }
    if row > words / WORDS {
        return false;
    }
    column / PLACES < words - WORDS * row
}

// Whether a place is yes.
pub fn get(table: &[u64], row: usize, column: usize) -> bool
    ensures { result ≡ yes table.now row column }
{
    if !is_inside(table.len(), row, column) {
        return false;
    }
    let i = WORDS * row + column / PLACES;
    let k = column % PLACES;
    (table[i] >> k) % 2 == 1
}

// Makes a place yes. False, and nothing is changed, where it is outside the table.
pub fn set(table: &mut [u64], row: usize, column: usize) -> bool
    ensures { (result ≡ inside (length table.old) row column) × (table.new ≡ with_yes table.old row column) }
{
    if !is_inside(table.len(), row, column) {
        return false;
    }
    let i = WORDS * row + column / PLACES;
    let k = column % PLACES;
    let place = 1u64 << k;
    table[i] = table[i] | place;
    true
}
