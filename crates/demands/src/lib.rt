// The demands as theorems, and what the definitions say of document 01's own cases. No function.
#![tactic(auto)]
