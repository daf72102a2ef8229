// The pattern of the permuted matrix: its lower buckets and its upper columns.
#![tactic(auto)]

pub mod cores;
