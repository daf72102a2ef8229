// The end of a column: its diagonal block is decomposed, and its rows go, solved by that from the right, to their places in L.
#![tactic(auto)]

pub mod cores;
