// Words written over a table from a place on (Overlay): those past its end are dropped, so that an empty table takes none and what is written can be measured.
// Each function takes any words and any place.
ghost use Rattle.std.specs.Prelude.{◌≡◌, true, [], ◌∷◌};
ghost use Rattle.fusion.specs.place.Overlay.{overlay};
ghost use Rattle.fusion.specs.tables.Names.{names_fit, names_put, rows_of_names};

use words::layout::{MATCH_NAME_ROW, NEXT_NAME};

// The largest number of a name.
const NUMBERS: u64 = 549755813888;

// Writes a word at a place.
pub fn put_word(word: u64, at: usize, table: &mut [u64])
    ensures { table.new ≡ overlay at (word ∷ []) table.old }
{
    if at < table.len() {
        table[at] = word;
    }
}

// Writes words from a place on.
pub fn put(words: &[u64], at: usize, table: &mut [u64])
    ensures { table.new ≡ overlay at words.now table.old }
{
    if at > table.len() {
        return;
    }
    let n = words.len().min(table.len() - at);
    for i in 0..n {
        table[at + i] = words[i];
    }
}

// Whether each number has a row.
pub(crate) fn fit(numbers: &[u64]) -> bool
    ensures { result ≡ names_fit numbers.now }
{
    numbers.iter().all(|n| *n <= NUMBERS)
}

// Writes the rows of names of these numbers from a place on.
fn write_names(numbers: &[u64], at: usize, table: &mut [u64])
    requires { names_fit numbers.now ≡ true }
    ensures { table.new ≡ overlay at (rows_of_names numbers.now) table.old }
{
    if at > table.len() {
        return;
    }
    let n = numbers.len().min(table.len() - at);
    for i in 0..n {
        table[at + i] = MATCH_NAME_ROW + NEXT_NAME * numbers[i];
    }
}

// Writes the rows of names of these numbers from a place on; false, and nothing written, where a number has none.
pub fn put_names(numbers: &[u64], at: usize, table: &mut [u64]) -> bool
    ensures { (result ≡ names_fit numbers.now)
        × (table.new ≡ names_put (names_fit numbers.now) numbers.now at table.old) }
{
    let fits = fit(numbers);
    if fits {
        write_names(numbers, at, table);
    }
    fits
}
