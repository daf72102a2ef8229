// The lists that are handed on together: what a plan and a solve are called with, L's tables, and what the columns are made of.
#![tactic(auto)]

// The pattern of a system, under the permutation and the late flags that are called for.
#[derive(Clone, Copy, Drop)]
pub struct Night<'a> {
    // The dimension of each block.
    pub dims: &'a [u32],
    // A's pattern from the diagonal down, column after column: where each column begins, and the row of each block.
    pub starts: &'a [u32],
    pub rows: &'a [u32],
    // The old number of each new one.
    pub perm: &'a [u32],
    // A flag 0 or 1 for each block.
    pub late: &'a [u32],
}

// A factor, each list exactly the first places that `factorize` filled. Its tables go by new number.
#[derive(Clone, Copy, Drop)]
pub struct Factor<'a> {
    // The permutation after the late move: n blocks.
    pub order: &'a [u32],
    // The elimination tree: n.
    pub parents: &'a [u32],
    // The rows of L: n + 1 starts.
    pub l_starts: &'a [u32],
    pub l_rows: &'a [u32],
    // Where the body of each of them begins, and L's numbers last.
    pub l_offsets: &'a [u32],
    // Those bodies.
    pub l_values: &'a [f64],
    // The unit factors of the diagonal blocks: the sum of the dimensions' squares.
    pub diag: &'a [f64],
    // Their pivots: the scalars.
    pub d: &'a [f64],
}

// A with its values, by old number, and the order of elimination.
#[derive(Clone, Copy, Drop)]
pub struct Matrix<'a> {
    pub dims: &'a [u32],
    pub starts: &'a [u32],
    pub rows: &'a [u32],
    pub values: &'a [f64],
    // Where each body begins in the values, and where the last one ends.
    pub bodies: &'a [u32],
    // The old number of each new one.
    pub order: &'a [u32],
}

// The tables that a factor is worked out with, by new number.
#[derive(Clone, Copy, Drop)]
pub struct Tables<'a> {
    // The dimension of each block.
    pub sizes: &'a [u32],
    // Where each column of L begins, and where the last one ends.
    pub l_starts: &'a [u32],
    // The row of each block of L, column after column.
    pub l_rows: &'a [u32],
    // Where the body of each begins in L's values, and where the last one ends.
    pub l_offsets: &'a [u32],
    // Where the unit factor of each diagonal block begins, and its d.
    pub unit_starts: &'a [u32],
    pub d_starts: &'a [u32],
    // The upper pattern of the permuted matrix: where each column begins, and its rows.
    pub into: &'a [u32],
    pub upper: &'a [u32],
    // The elimination tree.
    pub tree: &'a [u32],
}

// The numbers of a factor: L's values, the unit factors of the diagonal blocks, d, and the cache, which keeps Q of the rows as far as it is long enough.
#[derive(Drop)]
pub struct Numbers<'a> {
    pub l_values: &'a mut [f64],
    pub diag: &'a mut [f64],
    pub d: &'a mut [f64],
    pub cache: &'a mut [f64],
}
