// The factorization in outputs that may be longer than their needs.
#![tactic(auto)]

pub mod cores;
