// The solve where the lengths are known to be right, and the checks of the lengths.
// Kept: how long each slice is, as a fact about sizes that the slices of a call share: structs with sizes of their own would need as many facts, that these agree.
ghost use Rattle.std.specs.Prelude.{◌≡◌, ◌*◌, length, OnOk};
ghost use Rattle.refusal.specs.Shaped.{told};
ghost use Rattle.dense_solve_right.specs.SolveRight.{ldlt_right_matsolve, right_verdict};

use kernel_diag_right::cores::diag_right_matsolve_core;
use kernel_right::cores::lower_right_solve_core;
use kernel_right_transpose::cores::lower_transpose_rightsolve_core;
use refusal::{ShapeError, area, size};

// X := X A⁻¹
// Kept: three kernels in the source's order; with the solve from the left it has in common that it calls three, which are others.
pub fn ldlt_right_matsolve_core(m: usize, n: usize, l: &[f64], d: &[f64], x: &mut [f64])
    requires { (length l.now ≡ n * n) × (length d.now ≡ n) × (length x.old ≡ m * n) }
    ensures { x.new ≡ ldlt_right_matsolve m n l.now d.now x.old }
{
    lower_transpose_rightsolve_core(m, n, l, x);
    diag_right_matsolve_core(m, n, d, x);
    lower_right_solve_core(m, n, l, x);
}

// The shapes of a solve from the right.
#[tactic(auto, using(refusal::proofs::Laws::in_order), unfolding(crate::specs::SolveRight::right_verdict))]
pub fn right_shapes(
    least: usize,
    m: usize,
    n: usize,
    l: usize,
    d: usize,
    x: usize,
) -> Result<(), ShapeError>
    ensures verdict { told result ≡ right_verdict least m n l d x }
    ensures fits { OnOk result ((l ≡ n * n) × (d ≡ n) × (x ≡ m * n)) }
{
    size(least, 0, m)?;
    size(least, 1, n)?;
    area(0, n, n, l)?;
    area(1, n, 1, d)?;
    area(2, m, n, x)
}
