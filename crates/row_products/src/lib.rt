// The block products of a column by some rows of another.
#![tactic(auto)]

pub mod cores;
