// Solves with a diagonal from the left, of kernel.rs. Where d is 0.0 the vector form answers 0.0 and the matrix forms multiply by 0.0, so a
// semi-definite block is solved with too.
#![tactic(auto)]

pub mod cores;

ghost use Rattle.std.specs.Prelude.{◌≡◌, length, ◌*◌, OnOk};
ghost use Rattle.refusal.specs.Shaped.{told, Answers};
ghost use Rattle.kernel_diag.specs.Diag.{diag_solve, diag_matsolve, diag_verdict, diag_mat_verdict};

use crate::cores::{diag_matsolve_core, diag_solve_core};
use refusal::{ShapeError, area, size};

// y := D⁻¹ y, with d and y of n numbers.
// Kept: each calls its own shapes and its own core; these two lines are all that it shares with the others.
pub fn diag_solve_inplaced(n: usize, d: &[f64], y: &mut [f64]) -> Result<(), ShapeError>
    ensures { Answers (diag_verdict n (length d.now) (length y.old)) y.old (diag_solve n d.now y.old) result y.new }
{
    diag_shapes(n, d.len(), y.len())?;
    diag_solve_core(n, d, y);
    Ok(())
}

// Y := D⁻¹ Y, with d of n numbers and Y of n rows and nrhs columns.
// Kept: each calls its own shapes and its own core; these two lines are all that it shares with the others.
pub fn diag_matsolve_inplaced(
    n: usize,
    nrhs: usize,
    d: &[f64],
    y: &mut [f64],
) -> Result<(), ShapeError>
    ensures { Answers (diag_mat_verdict n nrhs (length d.now) (length y.old)) y.old (diag_matsolve n nrhs d.now y.old) result y.new }
{
    diag_mat_shapes(n, nrhs, d.len(), y.len())?;
    diag_matsolve_core(n, nrhs, d, y);
    Ok(())
}

// The shapes of a solve with one right side.
#[tactic(auto, using(refusal::proofs::Laws::in_order), unfolding(crate::specs::Diag::diag_verdict))]
fn diag_shapes(n: usize, d: usize, y: usize) -> Result<(), ShapeError>
    ensures verdict { told result ≡ diag_verdict n d y }
    ensures fits { OnOk result ((d ≡ n) × (y ≡ n)) }
{
    size(0, 0, n)?;
    area(0, n, 1, d)?;
    area(1, n, 1, y)
}

// The shapes of a solve with several right sides.
#[tactic(auto, using(refusal::proofs::Laws::in_order), unfolding(crate::specs::Diag::diag_mat_verdict))]
fn diag_mat_shapes(n: usize, nrhs: usize, d: usize, y: usize) -> Result<(), ShapeError>
    ensures verdict { told result ≡ diag_mat_verdict n nrhs d y }
    ensures fits { OnOk result ((d ≡ n) × (y ≡ n * nrhs)) }
{
    size(0, 0, n)?;
    size(0, 1, nrhs)?;
    area(0, n, 1, d)?;
    area(1, n, nrhs, y)
}
