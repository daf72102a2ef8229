// The contents of a sheet as tables: the columns of its entries, where each column begins, and where the bodies lie.
#![tactic(auto)]

pub mod cores;
