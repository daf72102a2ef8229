// The solve where the lengths are known to be right.
// Kept: how long each slice is, as a fact about sizes that the slices of a call share: structs with sizes of their own would need as many facts, that these agree.
ghost use Rattle.std.specs.Prelude.{◌≡◌, ℕ, ◌*◌, ◌<◌, Float, length};
ghost use Rattle.kernel_diag_right.specs.DiagRight.{diag_right_matsolve, columns_scaled};

use kernel_diag::cores::inverse_of;
use scalar::cores::{entry, store};

// Y := Y D⁻¹
pub fn diag_right_matsolve_core(m: usize, n: usize, d: &[f64], y: &mut [f64])
    requires { (length d.now ≡ n) × (length y.old ≡ m * n) }
    ensures { y.new ≡ diag_right_matsolve m n d.now y.old }
{
    scale_columns(m, n, y, |j| inverse_of(d[j]));
}

// Each column of Y is multiplied by its factor.
pub fn scale_columns<F: Fn(usize) -> f64>(m: usize, n: usize, y: &mut [f64], factor: F)
    requires y_len { length y.old ≡ m * n }
    requires callable { (j : ℕ) → j < n → F.pre factor j }
    ensures { (f : ℕ → Float) → ((j : ℕ) (v : Float) → j < n → F.post factor j v → v ≡ f j) → y.new ≡ columns_scaled m n f y.old }
{
    for j in 0..n {
        let by = factor(j);
        for r in 0..m {
            let v = entry(&y[..], m, n, r, j) * by;
            store(y, m, n, r, j, v);
        }
    }
}
