// The backward part of the solve: Lᵀ x = z, columns descending.
#![tactic(auto)]

pub mod cores;
