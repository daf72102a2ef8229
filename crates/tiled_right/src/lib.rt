// The solve with a decomposed block from the right, in tiles of rows that are held in locals.
#![tactic(auto)]

pub mod cores;
