// The product where the lengths are known to be right.
// Kept: how long each slice is, as a fact about sizes that the slices of a call share: structs with sizes of their own would need as many facts, that these agree.
ghost use Rattle.std.specs.Prelude.{◌≡◌, ◌*◌, ◌<◌, length};
ghost use Rattle.kernel_vector_transpose.specs.VectorTranspose.{column_sum, sub_mat_transpose_plus_vec};

use scalar::cores::{each_less, entry};

// x := x - Aᵀ z
// Kept: one line over `each_less`, which is what `kernel_vector`'s product is too.
pub fn sub_mat_transpose_plus_vec_core(m: usize, n: usize, x: &mut [f64], a: &[f64], z: &[f64])
    requires { (length x.old ≡ n) × (length a.now ≡ m * n) × (length z.now ≡ m) }
    ensures { x.new ≡ sub_mat_transpose_plus_vec m n x.old a.now z.now }
{
    each_less(x, |c| column_sum(m, n, a, z, c));
}

// The sum of column c's products with z.
// Kept: `kernel_vector`'s product goes along a row where this goes down a column; one function of both would take the reader of A, and share these four lines.
pub fn column_sum(m: usize, n: usize, a: &[f64], z: &[f64], c: usize) -> f64
    requires { (c < n) × (length a.now ≡ m * n) × (length z.now ≡ m) }
    ensures { result ≡ column_sum m a.now z.now c }
{
    let mut s = 0.0;
    for r in 0..m {
        s = s + entry(a, m, n, r, c) * z[r];
    }
    s
}
