// L's rows, column after column, where its plan has been counted.
#![tactic(auto)]

pub mod cores;
