// The block product of module 7: block (i, j) loses Q(i) d Q(j)ᵀ, promised as the machine's step.
#![tactic(auto)]

pub mod cores;
