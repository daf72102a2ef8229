// What a plan is lent as scratch, and zeros in it.
#![tactic(auto)]

pub mod cores;

// What a plan is lent to work in.
#[derive(Drop)]
pub struct Scratch<'a> {
    pub inverse: &'a mut [u32],
    pub sizes: &'a mut [u32],
    pub count: &'a mut [u32],
    pub heads: &'a mut [u32],
    pub into: &'a mut [u32],
    pub stamps: &'a mut [u32],
    pub table: &'a mut [u32],
    pub upper: &'a mut [u32],
}
