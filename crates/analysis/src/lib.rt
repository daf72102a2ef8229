// The plan of a night where its tables are known to be good: the links of the permuted matrix, the elimination tree, what L has in
// all, and L's rows.
#![tactic(auto)]

pub mod cores;
