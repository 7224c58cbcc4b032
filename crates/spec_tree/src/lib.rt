// Definitions: kinds, trees, their facts, node rows, words of trees, values and texts (01, "Expressions and facts", "Text", "Value"). No code.
#![tactic(auto)]
