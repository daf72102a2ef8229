// Solves with one decomposed block A = L D Lᵀ of the diagonal, of block_diag_ldlt.rs. Here a dimension 0 is refused.
#![tactic(auto)]

ghost use Rattle.std.specs.Prelude.{length};
ghost use Rattle.refusal.specs.Shaped.{Answers};
ghost use Rattle.dense_solve.specs.Solve.{ldlt_solve, solve_verdict};
ghost use Rattle.dense_solve_right.specs.SolveRight.{ldlt_right_matsolve, right_verdict};

use dense_solve::cores::{ldlt_solve_core, solve_shapes};
use dense_solve_right::cores::{ldlt_right_matsolve_core, right_shapes};
use refusal::ShapeError;

// y := A⁻¹ y, with the factor mat_l of n rows and columns, d and y of n numbers.
// Kept: a name of the source and of the C interface: `dense_solve::ldlt_solve_inplace`, but that a dimension 0 is refused.
pub fn solve_inplace_vec(
    n: usize,
    mat_l: &[f64],
    d: &[f64],
    y: &mut [f64],
) -> Result<(), ShapeError>
    ensures { Answers (solve_verdict 1 n (length mat_l.now) (length d.now) (length y.old)) y.old (ldlt_solve n mat_l.now d.now y.old) result y.new }
{
    solve_shapes(1, n, mat_l.len(), d.len(), y.len())?;
    ldlt_solve_core(n, mat_l, d, y);
    Ok(())
}

// X := X A⁻¹, with the factor mat_l of n rows and columns, d of n numbers and X of m rows and n columns.
// Kept: a name of the source and of the C interface: `dense_solve_right::ldlt_right_matsolve_inplace`, but that a dimension 0 is refused.
pub fn right_solve_inplace(
    m: usize,
    n: usize,
    mat_l: &[f64],
    d: &[f64],
    x: &mut [f64],
) -> Result<(), ShapeError>
    ensures { Answers (right_verdict 1 m n (length mat_l.now) (length d.now) (length x.old)) x.old (ldlt_right_matsolve m n mat_l.now d.now x.old) result x.new }
{
    right_shapes(1, m, n, mat_l.len(), d.len(), x.len())?;
    ldlt_right_matsolve_core(m, n, mat_l, d, x);
    Ok(())
}
