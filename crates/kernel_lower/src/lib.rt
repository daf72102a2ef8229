// Substitutions with a unit lower triangular block L from the left, of kernel.rs. L's diagonal is not read.
#![tactic(auto)]

pub mod cores;

ghost use Rattle.std.specs.Prelude.{length};
ghost use Rattle.refusal.specs.Shaped.{Answers};
ghost use Rattle.kernel_lower.specs.Lower.{lower_solve, lower_matsolve, solve_verdict, matsolve_verdict};

use crate::cores::{lower_matsolve_core, lower_solve_core, matsolve_shapes, solve_shapes};
use refusal::ShapeError;

// y := L⁻¹ y, with L of n rows and columns and y of n numbers.
// Kept: each calls its own shapes and its own core; these two lines are all that it shares with the others.
pub fn lower_solve_inplace(n: usize, l: &[f64], y: &mut [f64]) -> Result<(), ShapeError>
    ensures { Answers (solve_verdict n (length l.now) (length y.old)) y.old (lower_solve n l.now y.old) result y.new }
{
    solve_shapes(n, l.len(), y.len())?;
    lower_solve_core(n, l, y);
    Ok(())
}

// Y := L⁻¹ Y, with L of n rows and columns and Y of n rows and nrhs columns.
// Kept: each calls its own shapes and its own core; these two lines are all that it shares with the others.
pub fn lower_matsolve_inplace(
    n: usize,
    nrhs: usize,
    l: &[f64],
    y: &mut [f64],
) -> Result<(), ShapeError>
    ensures { Answers (matsolve_verdict n nrhs (length l.now) (length y.old)) y.old (lower_matsolve n nrhs l.now y.old) result y.new }
{
    matsolve_shapes(n, nrhs, l.len(), y.len())?;
    lower_matsolve_core(n, nrhs, l, y);
    Ok(())
}
