// Definitions: what a sheet is, and load with its refusals (01, "Sheet and printing"). No code.
#![tactic(auto)]
