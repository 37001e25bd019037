// Guarantees: what a predicate asks of a column's values as a set.
#![tactic(auto)]
