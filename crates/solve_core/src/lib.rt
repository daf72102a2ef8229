// The solve with a block factor, where its tables are known to be good.
#![tactic(auto)]

pub mod cores;
