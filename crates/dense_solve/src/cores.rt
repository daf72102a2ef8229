// The solves where the lengths are known to be right, and the checks that they share with the blocks of a diagonal.
// Kept: how long each slice is, as a fact about sizes that the slices of a call share: structs with sizes of their own would need as many facts, that these agree.
ghost use Rattle.std.specs.Prelude.{◌≡◌, ◌*◌, length, OnOk};
ghost use Rattle.refusal.specs.Shaped.{told};
ghost use Rattle.kernel_diag.specs.Diag.{diag_solve};
ghost use Rattle.kernel_lower_transpose.specs.Transpose.{lower_transpose_solve};
ghost use Rattle.dense_solve.specs.Solve.{ldlt_solve, ldlt_matsolve, solve_verdict};

use kernel_diag::cores::{diag_matsolve_core, quotient_of};
use kernel_lower::cores::{lower_matsolve_core, lower_solve_core};
use kernel_lower_transpose::cores::lower_transpose_matsolve_core;
use refusal::{ShapeError, area, size};
use scalar::cores::entry;

// x := A⁻¹ x
pub fn ldlt_solve_core(n: usize, l: &[f64], d: &[f64], x: &mut [f64])
    requires { (length l.now ≡ n * n) × (length d.now ≡ n) × (length x.old ≡ n) }
    ensures { x.new ≡ ldlt_solve n l.now d.now x.old }
{
    lower_solve_core(n, l, x);
    divided_transpose_core(n, l, d, x);
}

// x := L⁻ᵀ D⁻¹ x, the rows from the last to the first, each divided at its turn. Each loop counts up from 0, and works out its index.
// Kept: the back substitution of `kernel_lower_transpose`, but that it divides: where a loop of its own divides the numbers, in pairs, the load of a pair waits for what
// was stored one by one just before, and a block of two rows takes 19 ns for 11.
fn divided_transpose_core(n: usize, l: &[f64], d: &[f64], x: &mut [f64])
    requires { (length l.now ≡ n * n) × (length d.now ≡ n) × (length x.old ≡ n) }
    ensures { x.new ≡ lower_transpose_solve n l.now (diag_solve n d.now x.old) }
{
    for t in 0..n {
        let i = n - 1 - t;
        let mut s = quotient_of(x[i], d[i]);
        for u in 0..t {
            let k = i + 1 + u;
            s = s - entry(l, n, n, k, i) * x[k];
        }
        x[i] = s;
    }
}

// X := A⁻¹ X
// Kept: three kernels in the source's order; with the solve from the right it has in common that it calls three, which are others.
pub fn ldlt_matsolve_core(n: usize, nrhs: usize, l: &[f64], d: &[f64], x: &mut [f64])
    requires { (length l.now ≡ n * n) × (length d.now ≡ n) × (length x.old ≡ n * nrhs) }
    ensures { x.new ≡ ldlt_matsolve n nrhs l.now d.now x.old }
{
    lower_matsolve_core(n, nrhs, l, x);
    diag_matsolve_core(n, nrhs, d, x);
    lower_transpose_matsolve_core(n, nrhs, l, x);
}

// The shapes of a solve with one right side.
#[tactic(auto, using(refusal::proofs::Laws::in_order), unfolding(crate::specs::Solve::solve_verdict))]
pub fn solve_shapes(least: usize, n: usize, l: usize, d: usize, x: usize) -> Result<(), ShapeError>
    ensures verdict { told result ≡ solve_verdict least n l d x }
    ensures fits { OnOk result ((l ≡ n * n) × (d ≡ n) × (x ≡ n)) }
{
    size(least, 0, n)?;
    area(0, n, n, l)?;
    area(1, n, 1, d)?;
    area(2, n, 1, x)
}
