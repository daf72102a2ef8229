// The products where the lengths are known to be right.
// Kept: how long each slice is, as a fact about sizes that the slices of a call share: structs with sizes of their own would need as many facts, that these agree.
ghost use Rattle.std.specs.Prelude.{◌≡◌, ◌*◌, length};
ghost use Rattle.scalar.specs.Block.{lose, gain};
ghost use Rattle.kernel_product.specs.Product.{Change, changed, sub_mat_diag_mat_t, add_mat_diag_mat_t};

use scalar::cores::{entry, store};

// What an entry of Y becomes by one of A and one of B.
trait Step {
    ghost step: { Change };

    fn step(y: f64, a: f64, b: f64) -> f64
        ensures { result ≡ step y a b };
}

// It loses their product.
struct Less;

impl Step for Less {
    ghost step = { lose };

    fn step(y: f64, a: f64, b: f64) -> f64 {
        y - a * b
    }
}

// It gains their product.
struct More;

impl Step for More {
    ghost step = { gain };

    fn step(y: f64, a: f64, b: f64) -> f64 {
        y + a * b
    }
}

// Y := Y - A diag(d) Bᵀ
pub fn sub_mat_diag_mat_t_core(
    m: usize,
    n: usize,
    k: usize,
    y: &mut [f64],
    a: &[f64],
    d: &[f64],
    b: &[f64],
)
    requires { (length y.old ≡ m * n) × (length a.now ≡ m * k) × (length d.now ≡ k) × (length b.now ≡ n * k) }
    ensures { y.new ≡ sub_mat_diag_mat_t m n k y.old a.now d.now b.now }
{
    change::<Less>(m, n, k, y, a, d, b);
}

// Y := Y + A diag(d) Bᵀ
pub fn add_mat_diag_mat_t_core(
    m: usize,
    n: usize,
    k: usize,
    y: &mut [f64],
    a: &[f64],
    d: &[f64],
    b: &[f64],
)
    requires { (length y.old ≡ m * n) × (length a.now ≡ m * k) × (length d.now ≡ k) × (length b.now ≡ n * k) }
    ensures { y.new ≡ add_mat_diag_mat_t m n k y.old a.now d.now b.now }
{
    change::<More>(m, n, k, y, a, d, b);
}

// Each entry of Y changes by A diag(d) Bᵀ, t by t.
fn change<S: Step>(m: usize, n: usize, k: usize, y: &mut [f64], a: &[f64], d: &[f64], b: &[f64])
    requires { (length y.old ≡ m * n) × (length a.now ≡ m * k) × (length d.now ≡ k) × (length b.now ≡ n * k) }
    ensures { y.new ≡ changed S.step m n k y.old a.now d.now b.now }
{
    for t in 0..k {
        let dt = d[t];
        for j in 0..n {
            let bj = entry(b, n, k, j, t) * dt;
            for i in 0..m {
                let v = S::step(entry(&y[..], m, n, i, j), entry(a, m, k, i, t), bj);
                store(y, m, n, i, j, v);
            }
        }
    }
}
