// The substitution where the lengths are known to be right.
// Kept: how long each slice is, as a fact about sizes that the slices of a call share: structs with sizes of their own would need as many facts, that these agree.
ghost use Rattle.std.specs.Prelude.{◌≡◌, ◌*◌, ◌<◌, length};
ghost use Rattle.kernel_right_transpose.specs.RightTranspose.{transpose_less, lower_transpose_rightsolve};

use scalar::cores::{entry, store};

// X := X L⁻ᵀ, in each row the columns from the first to the last.
pub fn lower_transpose_rightsolve_core(m: usize, n: usize, l: &[f64], x: &mut [f64])
    requires { (length l.now ≡ n * n) × (length x.old ≡ m * n) }
    ensures { x.new ≡ lower_transpose_rightsolve m n l.now x.old }
{
    for r in 0..m {
        for j in 0..n {
            let s = less_before(m, n, r, j, l, &x[..]);
            store(x, m, n, r, j, s);
        }
    }
}

// x(r, j), less x(r, t) * L(j, t) for t = 0, .., j - 1.
// Kept: `kernel_right::less_after` goes over other columns and reads L the other way; one function of both would take the columns and a reader of L, and share
// these four lines alone.
fn less_before(m: usize, n: usize, r: usize, j: usize, l: &[f64], x: &[f64]) -> f64
    requires { (r < m) × (j < n) × (length l.now ≡ n * n) × (length x.now ≡ m * n) }
    ensures { result ≡ transpose_less m n l.now x.now r j }
{
    let mut s = entry(x, m, n, r, j);
    for t in 0..j {
        s = s - entry(x, m, n, r, t) * entry(l, n, n, j, t);
    }
    s
}
