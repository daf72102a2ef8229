// Q(i) of the rows of a finished column, kept for the later columns that have products by it.
#![tactic(auto)]

pub mod cores;
