// The factorization in the first places of longer buffers.
#![tactic(auto)]

pub mod cores;
