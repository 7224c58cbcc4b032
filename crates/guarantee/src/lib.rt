// What a user is promised, as theorems over the definitions and over the contracts of the operations: the marked lists, the misreadings, demand 3 for what `cse` and `cse_scoped`
// return, and that every answer passes 13 and is printed. No code.
#![tactic(auto)]
