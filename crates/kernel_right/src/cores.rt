// The substitution where the lengths are known to be right, and the checks of the lengths.
// Kept: how long each slice is, as a fact about sizes that the slices of a call share: structs with sizes of their own would need as many facts, that these agree.
ghost use Rattle.std.specs.Prelude.{◌≡◌, ◌+◌, ◌*◌, ◌<◌, length, OnOk};
ghost use Rattle.refusal.specs.Shaped.{told};
ghost use Rattle.kernel_right.specs.Right.{right_less, lower_right_solve, right_verdict};

use refusal::{ShapeError, area, size};
use scalar::cores::{entry, store};

// X := X L⁻¹, in each row the columns from the last to the first.
pub fn lower_right_solve_core(m: usize, n: usize, l: &[f64], x: &mut [f64])
    requires { (length l.now ≡ n * n) × (length x.old ≡ m * n) }
    ensures { x.new ≡ lower_right_solve m n l.now x.old }
{
    for r in 0..m {
        for u in 0..n {
            let j = n - 1 - u;
            let s = less_after(m, n, r, j, u, l, &x[..]);
            store(x, m, n, r, j, s);
        }
    }
}

// x(r, j), less x(r, t) * L(t, j) for t = j + 1, .., j + u.
// Kept: the transposed solve, `less_before`, goes over other columns and reads L the other way; one function of both would take the columns and a reader of L,
// and share these four lines alone.
fn less_after(m: usize, n: usize, r: usize, j: usize, u: usize, l: &[f64], x: &[f64]) -> f64
    requires { (r < m) × (j + u < n) × (length l.now ≡ n * n) × (length x.now ≡ m * n) }
    ensures { result ≡ right_less m n l.now x.now r j u }
{
    let mut s = entry(x, m, n, r, j);
    for v in 0..u {
        let t = j + 1 + v;
        s = s - entry(x, m, n, r, t) * entry(l, n, n, t, j);
    }
    s
}

// The shapes of a solve from the right.
#[tactic(auto, using(refusal::proofs::Laws::in_order), unfolding(crate::specs::Right::right_verdict))]
pub fn right_shapes(m: usize, n: usize, l: usize, x: usize) -> Result<(), ShapeError>
    ensures verdict { told result ≡ right_verdict m n l x }
    ensures fits { OnOk result ((l ≡ n * n) × (x ≡ m * n)) }
{
    size(0, 0, m)?;
    size(0, 1, n)?;
    area(0, n, n, l)?;
    area(1, m, n, x)
}
