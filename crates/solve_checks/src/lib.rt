// The checks of the tables that a solve is called with: A's tables without its values, the permutation, the late flags, and the factor's
// tables, 1 to 9 of document 01, on any input whatever: accepted, or the refusal with the lowest number, at its first place. Within
// a number A's table comes before the factor's, and the parents come last of 5. Only 7 stands behind 8 and 9: the areas of a factor go by
// the order of elimination.
#![tactic(auto)]

ghost use Rattle.std.specs.Prelude.{◌≡◌};
ghost use Rattle.solve_checks.specs.Verdict.{solve_verdict};
ghost use Rattle.solve_checks.specs.Outcome.{told_solve, told_solve_error};

use checks::{MAX_BLOCKS, MAX_STORED};
use columns::cores::{Least, first_fall, first_row};
use factor_order::cores::area_under;
use lists::{Factor, Night};
use refusal::Refusal;
use tables::cores::{first_dim, first_late, first_parent, first_perm, first_start};

// The refusals of a check of the tables of a solve.
#[derive(Clone, Copy, Debug, PartialEq, Eq)]
pub enum SolveTablesError {
    // 1
    Blocks,
    // 2: the block.
    Dimension { place: usize },
    // 3: the entry of A's column starts.
    Starts { place: usize },
    // 3: the entry of the factor's column starts.
    LStarts { place: usize },
    // 4
    Stored,
    // 5: the entry of A's row table.
    Row { place: usize },
    // 5: the entry of the factor's row table.
    LRow { place: usize },
    // 5: the block whose parent is neither none nor a greater block.
    Parent { block: usize },
    // 6: the entry of A's row table.
    Order { place: usize },
    // 6: the entry of the factor's row table.
    LOrder { place: usize },
    // 7: of the factor.
    LValues,
    // 8: the entry of the permutation.
    Permutation { place: usize },
    // 9: the late flag.
    Late { place: usize },
}

impl Refusal for SolveTablesError {
    ghost told = { told_solve_error };

    fn number(&self) -> u32 {
        match self {
            SolveTablesError::Blocks => 1,
            SolveTablesError::Dimension { place: _ } => 2,
            SolveTablesError::Starts { place: _ } => 3,
            SolveTablesError::LStarts { place: _ } => 3,
            SolveTablesError::Stored => 4,
            SolveTablesError::Row { place: _ } => 5,
            SolveTablesError::LRow { place: _ } => 5,
            SolveTablesError::Parent { block: _ } => 5,
            SolveTablesError::Order { place: _ } => 6,
            SolveTablesError::LOrder { place: _ } => 6,
            SolveTablesError::LValues => 7,
            SolveTablesError::Permutation { place: _ } => 8,
            SolveTablesError::Late { place: _ } => 9,
        }
    }
}

// A's tables, the permutation, the late flags, and the tables of a factor: the parents of its blocks, whatever their count, and its
// starts and rows, whose column j stores rows past j.
// Kept: no other check of tables can be called in it: within a number A's table comes before the factor's.
#[tactic(auto, using(crate::proofs::SolveLaws::solve_laws))]
pub fn check_solve(night: &Night, factor: &Factor) -> Result<(), SolveTablesError>
    ensures { told_solve result ≡ solve_verdict night.now.dims.now night.now.starts.now night.now.rows.now night.now.perm.now night.now.late.now factor.now.parents.now factor.now.l_starts.now factor.now.l_rows.now factor.now.l_values.now }
{
    let n = night.dims.len();
    if n > MAX_BLOCKS {
        return Err(SolveTablesError::Blocks);
    }
    if let Some(place) = first_dim(night.dims) {
        return Err(SolveTablesError::Dimension { place });
    }
    let m = night.rows.len();
    if let Some(place) = first_start(night.starts, n, m) {
        return Err(SolveTablesError::Starts { place });
    }
    if let Some(place) = first_start(factor.l_starts, n, factor.l_rows.len()) {
        return Err(SolveTablesError::LStarts { place });
    }
    if m > MAX_STORED {
        return Err(SolveTablesError::Stored);
    }
    if let Some(place) = first_row(night.starts, night.rows, n, Least::Diagonal) {
        return Err(SolveTablesError::Row { place });
    }
    if let Some(place) = first_row(factor.l_starts, factor.l_rows, n, Least::PastDiagonal) {
        return Err(SolveTablesError::LRow { place });
    }
    if let Some(block) = first_parent(factor.parents, n) {
        return Err(SolveTablesError::Parent { block });
    }
    if let Some(place) = first_fall(night.starts, night.rows, n) {
        return Err(SolveTablesError::Order { place });
    }
    if let Some(place) = first_fall(factor.l_starts, factor.l_rows, n) {
        return Err(SolveTablesError::LOrder { place });
    }
    if let Some(place) = first_perm(night.perm, n) {
        return Err(SolveTablesError::Permutation { place });
    }
    if let Some(place) = first_late(night.late, n) {
        return Err(SolveTablesError::Late { place });
    }
    let need = area_under(night, factor);
    if factor.l_values.len() != need {
        return Err(SolveTablesError::LValues);
    }
    Ok(())
}
