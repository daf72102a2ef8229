// Substitutions with the transpose of a unit lower triangular block L from the left, of kernel.rs. L's diagonal is not read.
#![tactic(auto)]

pub mod cores;

ghost use Rattle.std.specs.Prelude.{length};
ghost use Rattle.refusal.specs.Shaped.{Answers};
ghost use Rattle.kernel_lower.specs.Lower.{solve_verdict, matsolve_verdict};
ghost use Rattle.kernel_lower_transpose.specs.Transpose.{lower_transpose_solve, lower_transpose_matsolve};

use crate::cores::{lower_transpose_matsolve_core, lower_transpose_solve_core};
use kernel_lower::cores::{matsolve_shapes, solve_shapes};
use refusal::ShapeError;

// y := L⁻ᵀ y, with L of n rows and columns and y of n numbers.
// Kept: a name of the source, with a core of its own; the shapes are those of `kernel_lower`.
pub fn lower_transpose_solve_inplace(n: usize, l: &[f64], y: &mut [f64]) -> Result<(), ShapeError>
    ensures { Answers (solve_verdict n (length l.now) (length y.old)) y.old (lower_transpose_solve n l.now y.old) result y.new }
{
    solve_shapes(n, l.len(), y.len())?;
    lower_transpose_solve_core(n, l, y);
    Ok(())
}

// Y := L⁻ᵀ Y, with L of n rows and columns and Y of n rows and nrhs columns.
// Kept: a name of the source, with a core of its own; the shapes are those of `kernel_lower`.
pub fn lower_transpose_matsolve_inplace(
    n: usize,
    nrhs: usize,
    l: &[f64],
    y: &mut [f64],
) -> Result<(), ShapeError>
    ensures { Answers (matsolve_verdict n nrhs (length l.now) (length y.old)) y.old (lower_transpose_matsolve n nrhs l.now y.old) result y.new }
{
    matsolve_shapes(n, nrhs, l.len(), y.len())?;
    lower_transpose_matsolve_core(n, nrhs, l, y);
    Ok(())
}
