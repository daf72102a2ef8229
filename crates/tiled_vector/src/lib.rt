// A block times a vector, lost by another one: several numbers at a time.
#![tactic(auto)]

pub mod cores;
