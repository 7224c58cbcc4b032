// Node rows lent as words (01, "Expressions and facts"): whether they are rows that load lays out, refusal 9, and their
// trees as words.
//   kinds, names, fields   operand counts by kind; symbols' names; the fields of a row
//   rows, records          every limit of the list, and the length of its sheet: `check_rows`
//   unfolded               the trees of the roots, one word for each occurrence: `unfold`
#![tactic(auto)]

pub mod fields;
pub mod kinds;
pub mod names;
mod records;
pub mod rows;
pub mod unfolded;
