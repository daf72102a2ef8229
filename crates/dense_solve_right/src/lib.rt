// The solve with a decomposed block from the right, of dense_ldlt.rs: A below stands for L D Lᵀ, and its inverse for the kernels' solves
// in turn.
#![tactic(auto)]

pub mod cores;

ghost use Rattle.std.specs.Prelude.{length};
ghost use Rattle.refusal.specs.Shaped.{Answers};
ghost use Rattle.dense_solve_right.specs.SolveRight.{ldlt_right_matsolve, right_verdict};

use crate::cores::{ldlt_right_matsolve_core, right_shapes};
use refusal::ShapeError;

// X := X A⁻¹, with L of n rows and columns, d of n numbers and X of m rows and n columns.
// Kept: each calls its own shapes and its own core; these two lines are all that it shares with the others.
pub fn ldlt_right_matsolve_inplace(
    m: usize,
    n: usize,
    ld: &[f64],
    d: &[f64],
    x: &mut [f64],
) -> Result<(), ShapeError>
    ensures { Answers (right_verdict 0 m n (length ld.now) (length d.now) (length x.old)) x.old (ldlt_right_matsolve m n ld.now d.now x.old) result x.new }
{
    right_shapes(0, m, n, ld.len(), d.len(), x.len())?;
    ldlt_right_matsolve_core(m, n, ld, d, x);
    Ok(())
}
