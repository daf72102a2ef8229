// A factor in outputs that have exactly their needs: its tables, then its numbers.
#![tactic(auto)]

pub mod cores;
