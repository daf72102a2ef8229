// The factorization of a night that the rooms of the program `fit` hold: all scratch is of its own.
#![tactic(auto)]

pub mod cores;
