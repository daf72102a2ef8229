// One row of the dense decomposition, and the clearing above the diagonal.
#![tactic(auto)]

pub mod cores;
