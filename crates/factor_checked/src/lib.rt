// The night's tables tested, then the factorization in what is lent.
#![tactic(auto)]

pub mod cores;
