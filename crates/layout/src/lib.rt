// Where the blocks of a factor lie: the tables of its diagonal, and the laws that every block lies in its list and no two overlap.
#![tactic(auto)]

pub mod cores;
