// The factorization in exact buffers with its scratch cleared: all that is promised.
#![tactic(auto)]

pub mod cores;
