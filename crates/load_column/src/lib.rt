// Loading one column of the permuted matrix into the packed working column: each of its blocks in its place, as 0.0 + A's number,
// transposed where A's block lands above the diagonal; zeros where A stores none.
#![tactic(auto)]

pub mod cores;
