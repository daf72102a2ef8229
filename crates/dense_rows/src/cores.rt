// The steps of the decomposition of a block where the lengths are known to be right.
// Kept: how long each slice is, as a fact about sizes that the slices of a call share: structs with sizes of their own would need as many facts, that these agree.
ghost use Rattle.std.specs.Prelude.{◌≡◌, ◌*◌, ◌<◌, ◌≤◌, length};
ghost use Rattle.dense_rows.specs.Row.{reduced_entry, divided_by, divided_row, pivot_of, stored, clear_upper};

use scalar::at_most;
use scalar::cores::{entry, store};

// The entries of row j left of the diagonal become those of L. The result is the row's pivot: the entry (j, j), less
// (d(k) * L(j, k)) * L(j, k) for each k below j in turn. It loses each as the entry is made, so that its differences, each
// of which waits for the one before, run beside those of the entries.
pub fn divide_row(n: usize, j: usize, tolerance: f64, a: &mut [f64], d: &[f64]) -> f64
    requires j_lt_n { j < n }
    requires a_len { length a.old ≡ n * n }
    requires d_len { length d.now ≡ n }
    ensures a_after { a.new ≡ divided_row n j tolerance d.now a.old }
    ensures value { result ≡ pivot_of n j a.new d.now }
{
    let mut x = entry(&a[..], n, n, j, j);
    for k in 0..j {
        let s = reduced(n, j, k, &a[..], d);
        let l = divided(tolerance, d[k], s);
        store(a, n, n, j, k, l);
        x = x - d[k] * l * l;
    }
    x
}

// The entry (j, k), less (L(j, p) * d(p)) * L(k, p) for each p below k in turn.
fn reduced(n: usize, j: usize, k: usize, a: &[f64], d: &[f64]) -> f64
    requires k_le_j { (k ≤ j) × (j < n) }
    requires a_len { length a.now ≡ n * n }
    requires d_len { length d.now ≡ n }
    ensures { result ≡ reduced_entry n j k a.now d.now }
{
    let mut s = entry(a, n, n, j, k);
    for p in 0..k {
        s = s - entry(a, n, n, j, p) * d[p] * entry(a, n, n, k, p);
    }
    s
}

// s / d, and 0.0 where |d| is at most the tolerance.
fn divided(tolerance: f64, d: f64, s: f64) -> f64
    ensures { result ≡ divided_by tolerance d s }
{
    if at_most(d, tolerance) { 0.0 } else { s / d }
}

// The pivot as it is stored: 0.0 where |x| is at most the tolerance.
pub fn kept_of(tolerance: f64, x: f64) -> f64
    ensures { result ≡ stored tolerance x }
{
    if at_most(x, tolerance) { 0.0 } else { x }
}

// All above the diagonal becomes 0.0.
pub fn clear_upper(n: usize, a: &mut [f64])
    requires { length a.old ≡ n * n }
    ensures { a.new ≡ clear_upper n a.old }
{
    for r in 0..n {
        let others = n - 1 - r;
        for u in 0..others {
            store(a, n, n, r, r + 1 + u, 0.0);
        }
    }
}
