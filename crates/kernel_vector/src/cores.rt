// The product where the lengths are known to be right.
// Kept: how long each slice is, as a fact about sizes that the slices of a call share: structs with sizes of their own would need as many facts, that these agree.
ghost use Rattle.std.specs.Prelude.{◌≡◌, ◌*◌, ◌<◌, length};
ghost use Rattle.kernel_vector.specs.Vector.{row_sum, sub_mat_plus_vec};

use scalar::cores::{each_less, entry};

// y := y - A b
// Kept: one line over `each_less`, which is what the product with the transpose is too.
pub fn sub_mat_plus_vec_core(m: usize, n: usize, y: &mut [f64], a: &[f64], b: &[f64])
    requires { (length y.old ≡ m) × (length a.now ≡ m * n) × (length b.now ≡ n) }
    ensures { y.new ≡ sub_mat_plus_vec m n y.old a.now b.now }
{
    each_less(y, |r| row_sum(m, n, a, b, r));
}

// The sum of row r's products with b.
// Kept: the product with the transpose goes down a column where this goes along a row; one function of both would take the reader of A, and share these four lines.
pub fn row_sum(m: usize, n: usize, a: &[f64], b: &[f64], r: usize) -> f64
    requires { (r < m) × (length a.now ≡ m * n) × (length b.now ≡ n) }
    ensures { result ≡ row_sum m n a.now b.now r }
{
    let mut s = 0.0;
    for c in 0..n {
        s = s + entry(a, m, n, r, c) * b[c];
    }
    s
}
