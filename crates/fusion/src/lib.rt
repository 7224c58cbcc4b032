// Scoped fusion (01, "Scoped fusion"), on the words that a scope holds.
//   switches, groups   `collect_switches` of the source, and which switches are one match; the arms of a group
//   fuse               words with the members replaced by the names of their matches
//   scopeneeds         what a match reads
//   tables             rows laid over a table
//   place              definitions: a scope by places
#![tactic(auto)]

pub mod fuse;
pub mod groups;
pub mod scopeneeds;
pub mod switches;
pub mod tables;
