// Total orders and the forms over them: definitions and theorems, no function.
#![tactic(auto)]
