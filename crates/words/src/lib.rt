// Trees as words, one for each node in the order of reading: the layout of a word, how words are taken apart (tokens), searched and rewritten (words), copied, and
// bits in words.
#![tactic(auto)]

pub mod bits;
pub mod copying;
pub mod fault;
pub mod layout;
pub mod tokens;
pub mod words;
