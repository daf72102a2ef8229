// One block of the diagonal, of block_diag_ldlt.rs, decomposed. Here a dimension 0 is refused.
#![tactic(auto)]

pub mod cores;

ghost use Rattle.std.specs.Prelude.{◌≡◌, ◌≤◌, ◌*◌, OnOk};
ghost use Rattle.block_diag_ldlt.specs.Block.{told, told_error, told_checks, of_shape, of_block, decompose_verdict, decomposed};

use crate::cores::{BlockError, decompose_core};
use dense_pivots::LdltResult;
use refusal::{Refusal, ShapeError, area, size};
use scalar::is_tolerance;

// The refusals of a block's decomposition.
#[derive(Clone, Copy, Debug, PartialEq)]
pub enum DecomposeError {
    // 2: n is 0 or above 16.
    Dimension { place: usize },
    // 10
    Tolerance,
    // 12: place 0 is the block, place 1 its factor, place 2 is d.
    Mismatch { place: usize },
    // 13: the pivot of row `place` is NaN or infinite.
    NotFinite { place: usize, pivot: f64 },
    // 14: indefinite with a condition below 1e-10.
    Poor { condition: f64 },
}

impl Refusal for DecomposeError {
    ghost told = { told_error };

    fn number(&self) -> u32 {
        match self {
            DecomposeError::Dimension { place: _ } => 2,
            DecomposeError::Tolerance => 10,
            DecomposeError::Mismatch { place: _ } => 12,
            DecomposeError::NotFinite { place: _, pivot: _ } => 13,
            DecomposeError::Poor { condition: _ } => 14,
        }
    }
}

// Kept: case by case: each call's error has just the cases of its own refusals, so one that is handed on becomes the case of the same number and place.
impl From<ShapeError> for DecomposeError {
    ghost from_gives = { λ e r. r ≡ of_shape e };

    fn from(e: ShapeError) -> DecomposeError {
        match e {
            ShapeError::Dimension { place } => DecomposeError::Dimension { place },
            ShapeError::Mismatch { place } => DecomposeError::Mismatch { place },
        }
    }
}

impl From<BlockError> for DecomposeError {
    ghost from_gives = { λ e r. r ≡ of_block e };

    fn from(e: BlockError) -> DecomposeError {
        match e {
            BlockError::NotFinite { place, pivot } => DecomposeError::NotFinite { place, pivot },
            BlockError::Poor { condition } => DecomposeError::Poor { condition },
        }
    }
}

// The factor mat_l, of n rows and columns, and d, of n numbers, become those of the block mat_a, of n rows and columns, which
// is only read. After 2, 10 and 12 nothing is changed; after 13 and 14 the factor and d are NaNs in full.
pub fn decompose(
    n: usize,
    mat_a: &[f64],
    mat_l: &mut [f64],
    d: &mut [f64],
    tol_rel: f64,
) -> Result<LdltResult, DecomposeError>
    ensures { (told result, mat_l.new, d.new) ≡ decomposed n mat_a.now mat_l.old d.old tol_rel }
{
    decompose_shapes(n, tol_rel, mat_a.len(), mat_l.len(), d.len())?;
    let r = decompose_core(n, mat_a, mat_l, d, tol_rel)?;
    Ok(r)
}

// The checks of a decomposition.
#[tactic(auto, using(crate::proofs::VerdictLaws::in_order), unfolding(crate::specs::Block::decompose_verdict))]
fn decompose_shapes(n: usize, tol: f64, a: usize, l: usize, d: usize) -> Result<(), DecomposeError>
    ensures verdict { told_checks result ≡ decompose_verdict n tol a l d }
    ensures fits { OnOk result ((n ≤ 16) × (a ≡ n * n) × (l ≡ n * n) × (d ≡ n)) }
{
    size(1, 0, n)?;
    if !is_tolerance(tol) {
        return Err(DecomposeError::Tolerance);
    }
    area(0, n, n, a)?;
    area(1, n, n, l)?;
    area(2, n, 1, d)?;
    Ok(())
}
