// The substitutions where the lengths are known to be right.
// Kept: how long each slice is, as a fact about sizes that the slices of a call share: structs with sizes of their own would need as many facts, that these agree.
ghost use Rattle.std.specs.Prelude.{◌≡◌, ◌*◌, length};
ghost use Rattle.kernel_lower_transpose.specs.Transpose.{lower_transpose_solve, lower_transpose_matsolve};

use scalar::cores::{each_column, entry};

// y := L⁻ᵀ y, the rows from the last to the first. Each loop counts up from 0, and works out its index.
pub fn lower_transpose_solve_core(n: usize, l: &[f64], y: &mut [f64])
    requires l_len { length l.now ≡ n * n }
    requires y_len { length y.old ≡ n }
    ensures { y.new ≡ lower_transpose_solve n l.now y.old }
{
    for t in 0..n {
        let i = n - 1 - t;
        let mut s = y[i];
        for u in 0..t {
            let k = i + 1 + u;
            s = s - entry(l, n, n, k, i) * y[k];
        }
        y[i] = s;
    }
}

// Y := L⁻ᵀ Y, column by column.
// Kept: one line over `each_column`, which is what `kernel_lower`'s solve is too.
pub fn lower_transpose_matsolve_core(n: usize, nrhs: usize, l: &[f64], y: &mut [f64])
    requires l_len { length l.now ≡ n * n }
    requires y_len { length y.old ≡ n * nrhs }
    ensures { y.new ≡ lower_transpose_matsolve n nrhs l.now y.old }
{
    each_column(n, nrhs, y, |x| lower_transpose_solve_core(n, l, x));
}
