// A factor's order, its areas and its offsets against the dimensions, the permutation and the late flags that it is called with.
#![tactic(auto)]

pub mod cores;
