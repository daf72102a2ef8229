// The numbers of a factor: its columns one after the other, up to the first that is refused.
#![tactic(auto)]

pub mod cores;
