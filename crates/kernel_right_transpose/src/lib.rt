// The substitution with the transpose of a unit lower triangular block L from the right, of kernel.rs. L's diagonal is not read.
#![tactic(auto)]

pub mod cores;

ghost use Rattle.std.specs.Prelude.{length};
ghost use Rattle.refusal.specs.Shaped.{Answers};
ghost use Rattle.kernel_right.specs.Right.{right_verdict};
ghost use Rattle.kernel_right_transpose.specs.RightTranspose.{lower_transpose_rightsolve};

use crate::cores::lower_transpose_rightsolve_core;
use kernel_right::cores::right_shapes;
use refusal::ShapeError;

// X := X L⁻ᵀ, with L of n rows and columns and X of m rows and n columns.
// Kept: a name of the source, with a core of its own; the shapes are those of `kernel_right`.
pub fn lower_transpose_rightsolve_inplace(
    m: usize,
    n: usize,
    l: &[f64],
    x: &mut [f64],
) -> Result<(), ShapeError>
    ensures { Answers (right_verdict m n (length l.now) (length x.old)) x.old (lower_transpose_rightsolve m n l.now x.old) result x.new }
{
    right_shapes(m, n, l.len(), x.len())?;
    lower_transpose_rightsolve_core(m, n, l, x);
    Ok(())
}
