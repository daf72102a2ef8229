// The block products of a column by one that reaches it.
#![tactic(auto)]

pub mod cores;
