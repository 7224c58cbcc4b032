// Reciprocals (01, "Reciprocals").
//   divisors     those that are divided by twice or more, in the order of their texts: `count_divisors` of the source, and what it binds
//   settle       words with the bound divisors replaced, one after another
//   reciprocal   the binding of one divisor, settled by the later ones
//   bindings, final   laws: bindings and final rows by places
#![tactic(auto)]

pub mod divisors;
pub mod reciprocal;
pub mod settle;
