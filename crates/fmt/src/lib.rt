// `fmt.rs` of the source: the text of a tree (01, "Text"), and the order of texts.
//   emit, symbols, kindnames   bytes, numbers and names written or only measured
//   checked                    whether words are a tree that an answer may hold
//   shapes, writer             an operation's form, and the whole text: `write_tree`
//   order                      which of two texts, or trees by their texts, comes first
#![tactic(auto)]

pub mod checked;
pub mod emit;
mod kindnames;
pub mod order;
pub mod symbols;
pub mod writer;
