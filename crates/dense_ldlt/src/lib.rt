// The LDLᵀ decomposition of one dense block, in place, of dense_ldlt.rs.
#![tactic(auto)]

pub mod cores;

ghost use Rattle.std.specs.Prelude.{◌≡◌, ◌≤◌, ◌*◌, OnOk};
ghost use Rattle.dense_ldlt.specs.Decompose.{told, told_error, told_checks, of_shape, of_pivot, decompose_verdict, decomposed};

use crate::cores::{NotFinite, ldlt_decompose_core};
pub use dense_pivots::{Definiteness, LdltResult};
use refusal::{Refusal, ShapeError, area, size};
use scalar::is_tolerance;

// The refusals of a decomposition.
#[derive(Clone, Copy, Debug, PartialEq)]
pub enum LdltError {
    // 2: n is above 16.
    Dimension { place: usize },
    // 10
    Tolerance,
    // 12: place 0 is the block, place 1 is d.
    Mismatch { place: usize },
    // 13: the pivot of row `place` is NaN or infinite.
    NotFinite { place: usize, pivot: f64 },
}

impl Refusal for LdltError {
    ghost told = { told_error };

    fn number(&self) -> u32 {
        match self {
            LdltError::Dimension { place: _ } => 2,
            LdltError::Tolerance => 10,
            LdltError::Mismatch { place: _ } => 12,
            LdltError::NotFinite { place: _, pivot: _ } => 13,
        }
    }
}

// Kept: case by case: each call's error has just the cases of its own refusals, so one that is handed on becomes the case of the same number and place.
impl From<ShapeError> for LdltError {
    ghost from_gives = { λ e r. r ≡ of_shape e };

    fn from(e: ShapeError) -> LdltError {
        match e {
            ShapeError::Dimension { place } => LdltError::Dimension { place },
            ShapeError::Mismatch { place } => LdltError::Mismatch { place },
        }
    }
}

impl From<NotFinite> for LdltError {
    ghost from_gives = { λ e r. r ≡ of_pivot e };

    fn from(e: NotFinite) -> LdltError {
        LdltError::NotFinite {
            place: e.place,
            pivot: e.pivot,
        }
    }
}

// A of n rows and columns, whose lower triangle alone is read, becomes the unit lower triangular L, with 1.0 on the diagonal
// and 0.0 above it, and d, of n numbers, the diagonal of D, such that A is L D Lᵀ but for rounding and dropped pivots: one
// whose magnitude is at most the row's tolerance is stored as 0.0. After 2, 10 and 12 nothing is changed; after 13 the block and d are NaNs in full.
pub fn ldlt_decompose_inplace(
    n: usize,
    mat_a_lower: &mut [f64],
    mat_d: &mut [f64],
    rel_tol: f64,
) -> Result<LdltResult, LdltError>
    ensures { (told result, mat_a_lower.new, mat_d.new) ≡ decomposed n mat_a_lower.old mat_d.old rel_tol }
{
    decompose_shapes(n, rel_tol, mat_a_lower.len(), mat_d.len())?;
    let r = ldlt_decompose_core(n, mat_a_lower, mat_d, rel_tol)?;
    Ok(r)
}

// The checks of a decomposition.
#[tactic(auto, using(crate::proofs::VerdictLaws::in_order), unfolding(crate::specs::Decompose::decompose_verdict))]
fn decompose_shapes(n: usize, tol: f64, a: usize, d: usize) -> Result<(), LdltError>
    ensures verdict { told_checks result ≡ decompose_verdict n tol a d }
    ensures fits { OnOk result ((n ≤ 16) × (a ≡ n * n) × (d ≡ n)) }
{
    size(0, 0, n)?;
    if !is_tolerance(tol) {
        return Err(LdltError::Tolerance);
    }
    area(0, n, n, a)?;
    area(1, n, 1, d)?;
    Ok(())
}
