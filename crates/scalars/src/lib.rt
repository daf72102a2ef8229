// Blocks as runs of scalars, and the bodies of A's blocks, under the order of elimination.
#![tactic(auto)]

pub mod cores;
