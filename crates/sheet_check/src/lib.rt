// The tables of a sheet checked once they are unpacked: accepted, or refused in the order of the program `fit`. What the bytes of a
// sheet hold, and the verdict on them, are in specs/Sheet.antt.
#![tactic(auto)]

pub mod cores;
