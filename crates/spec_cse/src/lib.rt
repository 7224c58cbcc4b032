// Definitions: extraction from uses to scopes, answers and their rows, the call of extract, and demand 3 (01, from "Uses" to "Scoped fusion"). No code.
#![tactic(auto)]
