// The tables of a factorization, from A's tables, the order and L's rows; and how much room its lists need, from the dimensions alone.
#![tactic(auto)]

pub mod cores;
