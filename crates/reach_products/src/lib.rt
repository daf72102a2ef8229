// All block products of a column, in the machine's order: by each column that reaches it, for each row from the column's own on.
#![tactic(auto)]

pub mod cores;
