// The right side of a solve by new number, and the solution back in old order.
#![tactic(auto)]

pub mod cores;
