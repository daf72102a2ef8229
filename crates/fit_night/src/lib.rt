// A night within the rooms of the program `fit`: its factorization, its solve and its marks.
#![tactic(auto)]

pub mod cores;
