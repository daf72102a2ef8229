// The forward part of the solve: L y = b, columns ascending.
#![tactic(auto)]

pub mod cores;
