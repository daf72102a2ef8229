// The verdicts on tables, 1 to 10 of document 01, as definitions; what each gives whoever works with tables that pass; and the
// searches over dimensions, column starts, permutation, late flags and parents.
#![tactic(auto)]

pub mod cores;
