// A factor's tables tested against the system that it is called with, refusal 12 of document 01: the first column that is wrong, and how.
#![tactic(auto)]

pub mod cores;
