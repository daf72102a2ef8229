// The substitutions where the lengths are known to be right, and the checks of the lengths.
// Kept: how long each slice is, as a fact about sizes that the slices of a call share: structs with sizes of their own would need as many facts, that these agree.
ghost use Rattle.std.specs.Prelude.{◌≡◌, ◌*◌, length, OnOk};
ghost use Rattle.refusal.specs.Shaped.{told};
ghost use Rattle.kernel_lower.specs.Lower.{lower_solve, lower_matsolve, solve_verdict, matsolve_verdict};

use refusal::{ShapeError, area, size};
use scalar::cores::{each_column, entry};

// y := L⁻¹ y
pub fn lower_solve_core(n: usize, l: &[f64], y: &mut [f64])
    requires l_len { length l.now ≡ n * n }
    requires y_len { length y.old ≡ n }
    ensures { y.new ≡ lower_solve n l.now y.old }
{
    for i in 0..n {
        let mut s = y[i];
        for k in 0..i {
            s = s - entry(l, n, n, i, k) * y[k];
        }
        y[i] = s;
    }
}

// Y := L⁻¹ Y, column by column.
// Kept: one line over `each_column`, which is what the solve with the transpose is too.
pub fn lower_matsolve_core(n: usize, nrhs: usize, l: &[f64], y: &mut [f64])
    requires l_len { length l.now ≡ n * n }
    requires y_len { length y.old ≡ n * nrhs }
    ensures { y.new ≡ lower_matsolve n nrhs l.now y.old }
{
    each_column(n, nrhs, y, |x| lower_solve_core(n, l, x));
}

// The shapes of a solve with one right side.
#[tactic(auto, using(refusal::proofs::Laws::in_order), unfolding(crate::specs::Lower::solve_verdict))]
pub fn solve_shapes(n: usize, l: usize, y: usize) -> Result<(), ShapeError>
    ensures verdict { told result ≡ solve_verdict n l y }
    ensures fits { OnOk result ((l ≡ n * n) × (y ≡ n)) }
{
    size(0, 0, n)?;
    area(0, n, n, l)?;
    area(1, n, 1, y)
}

// The shapes of a solve with several right sides.
#[tactic(auto, using(refusal::proofs::Laws::in_order), unfolding(crate::specs::Lower::matsolve_verdict))]
pub fn matsolve_shapes(n: usize, nrhs: usize, l: usize, y: usize) -> Result<(), ShapeError>
    ensures verdict { told result ≡ matsolve_verdict n nrhs l y }
    ensures fits { OnOk result ((l ≡ n * n) × (y ≡ n * nrhs)) }
{
    size(0, 0, n)?;
    size(0, 1, nrhs)?;
    area(0, n, n, l)?;
    area(1, n, nrhs, y)
}
