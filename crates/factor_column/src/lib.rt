// One column of the factorization, whole: loaded, its products worked through, its diagonal block decomposed, its rows stored.
#![tactic(auto)]

pub mod cores;
