// The solves where the lengths are known to be right.
// Kept: how long each slice is, as a fact about sizes that the slices of a call share: structs with sizes of their own would need as many facts, that these agree.
ghost use Rattle.std.specs.Prelude.{◌≡◌, ◌*◌, length};
ghost use Rattle.kernel_diag.specs.Diag.{quotient, inverse, diag_solve, diag_matsolve};

use scalar::cores::{entry, store};

// y / d, and 0.0 where d is 0.0.
pub fn quotient_of(y: f64, d: f64) -> f64
    ensures { result ≡ quotient y d }
{
    if d == 0.0 { 0.0 } else { y / d }
}

// 1 / d, and 0.0 where d is 0.0.
pub fn inverse_of(d: f64) -> f64
    ensures { result ≡ inverse d }
{
    quotient_of(1.0, d)
}

// y := D⁻¹ y
pub fn diag_solve_core(n: usize, d: &[f64], y: &mut [f64])
    requires { (length d.now ≡ n) × (length y.old ≡ n) }
    ensures { y.new ≡ diag_solve n d.now y.old }
{
    for i in 0..n {
        y[i] = quotient_of(y[i], d[i]);
    }
}

// Y := D⁻¹ Y
pub fn diag_matsolve_core(n: usize, nrhs: usize, d: &[f64], y: &mut [f64])
    requires { (length d.now ≡ n) × (length y.old ≡ n * nrhs) }
    ensures { y.new ≡ diag_matsolve n nrhs d.now y.old }
{
    for i in 0..n {
        let by = inverse_of(d[i]);
        for c in 0..nrhs {
            let v = entry(&y[..], n, nrhs, i, c) * by;
            store(y, n, nrhs, i, c, v);
        }
    }
}
