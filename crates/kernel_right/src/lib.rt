// The substitution with a unit lower triangular block L from the right, of kernel.rs. L's diagonal is not read.
#![tactic(auto)]

pub mod cores;

ghost use Rattle.std.specs.Prelude.{length};
ghost use Rattle.refusal.specs.Shaped.{Answers};
ghost use Rattle.kernel_right.specs.Right.{lower_right_solve, right_verdict};

use crate::cores::{lower_right_solve_core, right_shapes};
use refusal::ShapeError;

// X := X L⁻¹, with L of n rows and columns and X of m rows and n columns.
// Kept: each calls its own shapes and its own core; these two lines are all that it shares with the others.
pub fn lower_right_solve_inplace(
    m: usize,
    n: usize,
    l: &[f64],
    x: &mut [f64],
) -> Result<(), ShapeError>
    ensures { Answers (right_verdict m n (length l.now) (length x.old)) x.old (lower_right_solve m n l.now x.old) result x.new }
{
    right_shapes(m, n, l.len(), x.len())?;
    lower_right_solve_core(m, n, l, x);
    Ok(())
}
