// The block products of a column: the walk over the tree finds the columns that reach it, and each works from its next place on.
#![tactic(auto)]

pub mod cores;
