// The blocks of the solve: each block of a vector is solved by its unit factor and d.
#![tactic(auto)]

pub mod cores;
