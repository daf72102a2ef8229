// Solves with a decomposed block from the left, of dense_ldlt.rs: A below stands for L D Lᵀ, and its inverse for the kernels' solves in turn.
#![tactic(auto)]

pub mod cores;

ghost use Rattle.std.specs.Prelude.{◌≡◌, length, ◌*◌, OnOk};
ghost use Rattle.refusal.specs.Shaped.{told, Answers};
ghost use Rattle.dense_solve.specs.Solve.{ldlt_solve, ldlt_matsolve, solve_verdict, matsolve_verdict};

use crate::cores::{ldlt_matsolve_core, ldlt_solve_core, solve_shapes};
use refusal::{ShapeError, area, size};

// x := A⁻¹ x, with L of n rows and columns, d and x of n numbers.
// Kept: each calls its own shapes and its own core; these two lines are all that it shares with the others.
pub fn ldlt_solve_inplace(
    n: usize,
    mat_l: &[f64],
    mat_d: &[f64],
    x: &mut [f64],
) -> Result<(), ShapeError>
    ensures { Answers (solve_verdict 0 n (length mat_l.now) (length mat_d.now) (length x.old)) x.old (ldlt_solve n mat_l.now mat_d.now x.old) result x.new }
{
    solve_shapes(0, n, mat_l.len(), mat_d.len(), x.len())?;
    ldlt_solve_core(n, mat_l, mat_d, x);
    Ok(())
}

// X := A⁻¹ X, with L of n rows and columns, d of n numbers and X of n rows and nrhs columns.
// Kept: each calls its own shapes and its own core; these two lines are all that it shares with the others.
pub fn ldlt_matsolve_inplace(
    n: usize,
    nrhs: usize,
    mat_l: &[f64],
    mat_d: &[f64],
    mat_x: &mut [f64],
) -> Result<(), ShapeError>
    ensures { Answers (matsolve_verdict n nrhs (length mat_l.now) (length mat_d.now) (length mat_x.old)) mat_x.old (ldlt_matsolve n nrhs mat_l.now mat_d.now mat_x.old) result mat_x.new }
{
    matsolve_shapes(n, nrhs, mat_l.len(), mat_d.len(), mat_x.len())?;
    ldlt_matsolve_core(n, nrhs, mat_l, mat_d, mat_x);
    Ok(())
}

// The shapes of a solve with several right sides.
#[tactic(auto, using(refusal::proofs::Laws::in_order), unfolding(crate::specs::Solve::matsolve_verdict))]
fn matsolve_shapes(n: usize, nrhs: usize, l: usize, d: usize, x: usize) -> Result<(), ShapeError>
    ensures verdict { told result ≡ matsolve_verdict n nrhs l d x }
    ensures fits { OnOk result ((l ≡ n * n) × (d ≡ n) × (x ≡ n * nrhs)) }
{
    size(0, 0, n)?;
    size(0, 1, nrhs)?;
    area(0, n, n, l)?;
    area(1, n, 1, d)?;
    area(2, n, nrhs, x)
}
