// Y - A Bᵀ, worked out in tiles that are held in locals while t ascends.
#![tactic(auto)]

pub mod cores;
