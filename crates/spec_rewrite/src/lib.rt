// Definitions: the rewritings of the source, the factors of a product and its coefficient (01, "Rewriting"). No code.
#![tactic(auto)]
