// Texts, decimal and hexadecimal numbers written into a lent buffer.
#![tactic(auto)]

pub mod cores;
