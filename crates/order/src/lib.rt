// The order of elimination: the move of the late blocks, the inverse of an order, and the dimensions of the blocks under it.
#![tactic(auto)]

pub mod cores;
