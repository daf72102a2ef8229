// The checks of the tables of a system, of what its plan is made from, and of a factor, 1 to 10 of document 01, on any input
// whatever: accepted, or the refusal with the lowest number, at its first place. No table is read by the column starts before
// these have passed.
#![tactic(auto)]

ghost use Rattle.std.specs.Prelude.{◌≡◌};
ghost use Rattle.tables.specs.Verdict.{system_verdict, plan_verdict, factor_verdict};
ghost use Rattle.checks.specs.Outcome.{told_system, told_plan, told_factor, told_system_error, told_plan_error, told_factor_error};

use columns::cores::{Least, first_fall, first_row, total_area};
use lists::Night;
use refusal::Refusal;
use scalar::is_tolerance;
use tables::cores::{first_dim, first_late, first_perm, first_start};

// The most blocks of a system, and the most blocks that A stores.
pub const MAX_BLOCKS: usize = 4096;

pub const MAX_STORED: usize = 65536;

// The refusals of a check of A's tables, the permutation, the late flags and the tolerance.
#[derive(Clone, Copy, Debug, PartialEq, Eq)]
pub enum SystemError {
    // 1
    Blocks,
    // 2: the block.
    Dimension { place: usize },
    // 3: the entry of the column starts.
    Starts { place: usize },
    // 4
    Stored,
    // 5: the entry of the row table.
    Row { place: usize },
    // 6: the entry of the row table.
    Order { place: usize },
    // 7
    Values,
    // 8: the entry of the permutation.
    Permutation { place: usize },
    // 9: the late flag.
    Late { place: usize },
    // 10
    Tolerance,
}

impl Refusal for SystemError {
    ghost told = { told_system_error };

    fn number(&self) -> u32 {
        match self {
            SystemError::Blocks => 1,
            SystemError::Dimension { place: _ } => 2,
            SystemError::Starts { place: _ } => 3,
            SystemError::Stored => 4,
            SystemError::Row { place: _ } => 5,
            SystemError::Order { place: _ } => 6,
            SystemError::Values => 7,
            SystemError::Permutation { place: _ } => 8,
            SystemError::Late { place: _ } => 9,
            SystemError::Tolerance => 10,
        }
    }
}

// The refusals of a check of A's tables without its values, the permutation and the late flags; places as above.
#[derive(Clone, Copy, Debug, PartialEq, Eq)]
pub enum PlanTablesError {
    // 1
    Blocks,
    // 2
    Dimension { place: usize },
    // 3
    Starts { place: usize },
    // 4
    Stored,
    // 5
    Row { place: usize },
    // 6
    Order { place: usize },
    // 8
    Permutation { place: usize },
    // 9
    Late { place: usize },
}

impl Refusal for PlanTablesError {
    ghost told = { told_plan_error };

    fn number(&self) -> u32 {
        match self {
            PlanTablesError::Blocks => 1,
            PlanTablesError::Dimension { place: _ } => 2,
            PlanTablesError::Starts { place: _ } => 3,
            PlanTablesError::Stored => 4,
            PlanTablesError::Row { place: _ } => 5,
            PlanTablesError::Order { place: _ } => 6,
            PlanTablesError::Permutation { place: _ } => 8,
            PlanTablesError::Late { place: _ } => 9,
        }
    }
}

// The refusals of a check of a factor's tables; places as above.
#[derive(Clone, Copy, Debug, PartialEq, Eq)]
pub enum FactorError {
    // 1
    Blocks,
    // 2
    Dimension { place: usize },
    // 3
    Starts { place: usize },
    // 5
    Row { place: usize },
    // 6
    Order { place: usize },
    // 7
    Values,
}

impl Refusal for FactorError {
    ghost told = { told_factor_error };

    fn number(&self) -> u32 {
        match self {
            FactorError::Blocks => 1,
            FactorError::Dimension { place: _ } => 2,
            FactorError::Starts { place: _ } => 3,
            FactorError::Row { place: _ } => 5,
            FactorError::Order { place: _ } => 6,
            FactorError::Values => 7,
        }
    }
}

// The tables of A, whose column j stores rows j and beyond, with the permutation, the late flags and the tolerance.
#[tactic(auto, using(crate::proofs::SystemLaws::system_laws))]
pub fn check_system(
    dims: &[u32],
    starts: &[u32],
    rows: &[u32],
    values: &[f64],
    perm: &[u32],
    late: &[u32],
    tol: f64,
) -> Result<(), SystemError>
    ensures { told_system result ≡ system_verdict dims.now starts.now rows.now values.now perm.now late.now tol }
{
    let n = dims.len();
    if n > MAX_BLOCKS {
        return Err(SystemError::Blocks);
    }
    if let Some(place) = first_dim(dims) {
        return Err(SystemError::Dimension { place });
    }
    let m = rows.len();
    if let Some(place) = first_start(starts, n, m) {
        return Err(SystemError::Starts { place });
    }
    if m > MAX_STORED {
        return Err(SystemError::Stored);
    }
    if let Some(place) = first_row(starts, rows, n, Least::Diagonal) {
        return Err(SystemError::Row { place });
    }
    if let Some(place) = first_fall(starts, rows, n) {
        return Err(SystemError::Order { place });
    }
    let need = total_area(dims, starts, rows);
    if values.len() != need {
        return Err(SystemError::Values);
    }
    if let Some(place) = first_perm(perm, n) {
        return Err(SystemError::Permutation { place });
    }
    if let Some(place) = first_late(late, n) {
        return Err(SystemError::Late { place });
    }
    if !is_tolerance(tol) {
        return Err(SystemError::Tolerance);
    }
    Ok(())
}

// What a plan is made from: A's tables without its values, the permutation and the late flags.
// Kept: its first six tests are those of `check_system`. A function for them would answer an error of its own, with six cases, and need a `From` into the error of either
// call: that is longer than the six tests.
#[tactic(auto, using(crate::proofs::PlanLaws::plan_laws))]
pub fn check_plan(night: &Night) -> Result<(), PlanTablesError>
    ensures { told_plan result ≡ plan_verdict night.now.dims.now night.now.starts.now night.now.rows.now night.now.perm.now night.now.late.now }
{
    let n = night.dims.len();
    if n > MAX_BLOCKS {
        return Err(PlanTablesError::Blocks);
    }
    if let Some(place) = first_dim(night.dims) {
        return Err(PlanTablesError::Dimension { place });
    }
    let m = night.rows.len();
    if let Some(place) = first_start(night.starts, n, m) {
        return Err(PlanTablesError::Starts { place });
    }
    if m > MAX_STORED {
        return Err(PlanTablesError::Stored);
    }
    if let Some(place) = first_row(night.starts, night.rows, n, Least::Diagonal) {
        return Err(PlanTablesError::Row { place });
    }
    if let Some(place) = first_fall(night.starts, night.rows, n) {
        return Err(PlanTablesError::Order { place });
    }
    if let Some(place) = first_perm(night.perm, n) {
        return Err(PlanTablesError::Permutation { place });
    }
    if let Some(place) = first_late(night.late, n) {
        return Err(PlanTablesError::Late { place });
    }
    Ok(())
}

// The tables of a factor, whose column j stores rows past j.
// Kept: its tests are those of `check_system` but for the bounds of the rows and for 4, in the midst of the others; shared by a function they would answer an error of its own.
#[tactic(auto, using(crate::proofs::FactorLaws::factor_laws))]
pub fn check_factor(
    dims: &[u32],
    starts: &[u32],
    rows: &[u32],
    values: &[f64],
) -> Result<(), FactorError>
    ensures { told_factor result ≡ factor_verdict dims.now starts.now rows.now values.now }
{
    let n = dims.len();
    if n > MAX_BLOCKS {
        return Err(FactorError::Blocks);
    }
    if let Some(place) = first_dim(dims) {
        return Err(FactorError::Dimension { place });
    }
    let m = rows.len();
    if let Some(place) = first_start(starts, n, m) {
        return Err(FactorError::Starts { place });
    }
    if let Some(place) = first_row(starts, rows, n, Least::PastDiagonal) {
        return Err(FactorError::Row { place });
    }
    if let Some(place) = first_fall(starts, rows, n) {
        return Err(FactorError::Order { place });
    }
    let need = total_area(dims, starts, rows);
    if values.len() != need {
        return Err(FactorError::Values);
    }
    Ok(())
}
