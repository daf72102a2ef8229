// The plan of L: how many rows each column has, where each begins, and the rows.
#![tactic(auto)]

pub mod cores;

// An elimination tree and what it is made from.
#[derive(Clone, Copy, Drop)]
pub struct UpperTree<'a> {
    // The upper pattern: where each column begins, and its rows.
    pub starts: &'a [u32],
    pub rows: &'a [u32],
    // Liu's table of parents.
    pub parent: &'a [u32],
}
