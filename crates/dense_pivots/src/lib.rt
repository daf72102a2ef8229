// The account of the stored pivots of a dense block, and the record that it ends in, of dense_ldlt.rs.
#![tactic(auto)]

pub mod cores;

// What the stored pivots say of a block.
#[derive(Clone, Copy, Debug, PartialEq, Eq)]
pub enum Definiteness {
    // All are positive.
    PositiveDefinite,
    // None is negative, and at least one is zero.
    PositiveSemiDefinite,
    // At least one is negative.
    Indefinite,
}

// The record of an accepted block.
#[derive(Clone, Copy)]
pub struct LdltResult {
    // How many stored pivots are not 0.0.
    pub rank: usize,
    pub definiteness: Definiteness,
    // The least |d| that is not 0.0 over the greatest, which is 1.0 at least; 0.0 where all are 0.0.
    pub pivot_condition: f64,
}
