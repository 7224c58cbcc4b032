// Definitions: print, the three calls one after another, and what the programs write (01, "Sheet and printing"). No code.
#![tactic(auto)]
