// The numbers of a factor: all its columns worked by the plan's tables, and NaN in full after a refusal.
#![tactic(auto)]

pub mod cores;
