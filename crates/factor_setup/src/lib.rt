// The tables of a factor, from what the analysis of the night leaves: L's columns, the order, the tree, and all offsets.
#![tactic(auto)]

pub mod cores;

ghost use Rattle.std.specs.Prelude.{◌≡◌, false};
ghost use Rattle.refusal.specs.Refusal.{refuses};
ghost use Rattle.tables.specs.Verdict.{system_verdict};
ghost use Rattle.factor_setup.specs.Lent.{night_of};

use lists::Night;
pub use symbolic::UpperTree;

// What a factorization is handed.
// Kept: one list of seven, in the order of the call. With a `Night` inside, `values` would stand apart from the starts and rows whose bodies it has, and each caller
// would build two structs for one.
#[derive(Clone, Copy, Drop)]
pub struct System<'a> {
    // The dimension of each block.
    pub dims: &'a [u32],
    // A from the diagonal down, column after column: where each column begins, the row of each block, and the bodies, column-major.
    pub starts: &'a [u32],
    pub rows: &'a [u32],
    pub values: &'a [f64],
    // The old number of each new one.
    pub perm: &'a [u32],
    // A flag 0 or 1 for each block.
    pub late: &'a [u32],
    // The relative tolerance of a pivot.
    pub tol: f64,
}

impl<'a> System<'a> {
    // Its pattern, under its permutation and its late flags.
    pub fn night(&self) -> Night<'a>
        ensures { result ≡ night_of self.now }
    {
        Night {
            dims: self.dims,
            starts: self.starts,
            rows: self.rows,
            perm: self.perm,
            late: self.late,
        }
    }
}

// A system that the checks have accepted.
#[derive(Clone, Copy, Drop)]
pub struct Passed<'a> {
    pub system: System<'a>,
    pub ghost accepted: { refuses (system_verdict system.dims.now system.starts.now system.rows.now system.values.now system.perm.now system.late.now system.tol) ≡ false },
}

// The outputs of a factorization.
#[derive(Drop)]
pub struct Outputs<'a> {
    pub order: &'a mut [u32],
    pub parents: &'a mut [u32],
    pub l_starts: &'a mut [u32],
    pub l_rows: &'a mut [u32],
    pub l_offsets: &'a mut [u32],
    pub l_values: &'a mut [f64],
    pub diag: &'a mut [f64],
    pub d: &'a mut [f64],
}

// What the numbers of a factor are worked out in, beside the scratch of its plan.
#[derive(Drop)]
pub struct Work<'a> {
    pub column: &'a mut [f64],
    pub bodies: &'a mut [u32],
    pub unit_starts: &'a mut [u32],
    pub d_starts: &'a mut [u32],
    pub places: &'a mut [u32],
}
