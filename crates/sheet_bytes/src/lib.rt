// The bytes of a sheet: little-endian numbers and floats, and tables of them.
#![tactic(auto)]

pub mod cores;
