// A sweep over the columns of a factor, as the solve makes one forward and one backward: what it reads.
#![tactic(auto)]

pub mod cores;

// The rows of a factor, by new number, and where the blocks of a vector begin.
#[derive(Clone, Copy, Drop)]
pub struct Rows<'a> {
    // The dimension of each block.
    pub sizes: &'a [u32],
    // Where the numbers of each block begin in the vector.
    pub starts: &'a [u32],
    // Where each column of L begins, and where the last one ends.
    pub l_starts: &'a [u32],
    // The row of each block of L, column after column.
    pub l_rows: &'a [u32],
    // Where the body of each begins in L's values, and where the last one ends.
    pub l_offsets: &'a [u32],
    // L's values.
    pub l_values: &'a [f64],
}
