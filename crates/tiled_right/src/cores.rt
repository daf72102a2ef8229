// The solve where the lengths are known to be right.
// Kept: how long each slice is, as a fact about sizes that the slices of a call share: structs with sizes of their own would need as many facts, that these agree.
ghost use Rattle.std.specs.Prelude.{◌≡◌, ℕ, ◌+◌, ◌*◌, ◌<◌, ◌≤◌, Float, length, slice_index_or};
ghost use Rattle.std.specs.Float.{nan, binary64};
ghost use Rattle.std.specs.Float.Ieee.{mul};
ghost use Rattle.dense_solve_right.specs.SolveRight.{ldlt_right_matsolve};
ghost use Rattle.tiled_product.specs.Tiled.{Holds};
ghost use Rattle.tiled_right.specs.TiledRight.{RowsSolved, lost};

use kernel_diag::cores::inverse_of;
use scalar::cores::entry;
use tiled_product::cores::{entries, height, keep};

// x becomes the block `from`, of m rows and n columns, solved from the right by the unit factor l and d: several rows at a time.
// Kept: this loop over tiles of four rows, three or one stands at three places, here, in `tiled_product` and in `tiled_vector`. Its step has a const parameter, which no
// closure takes, and a trait for it would need a struct of the call's arguments at each of them.
pub fn ldlt_right_matsolve_tiled(
    m: usize,
    n: usize,
    l: &[f64],
    d: &[f64],
    from: &[f64],
    x: &mut [f64],
)
    requires { (length l.now ≡ n * n) × (length d.now ≡ n) × (length from.now ≡ m * n) × (length x.old ≡ m * n) }
    ensures { x.new ≡ ldlt_right_matsolve m n l.now d.now from.now }
{
    let mut i: usize = 0;
    // Kept: a turn goes on by the height of its tile, which depends on how many rows are left, and no range steps so.
    while i < m {
        let h = height(m - i);
        if h == 4 {
            rows::<4>(m, n, l, d, from, x, i);
            i += 4;
        } else if h == 3 {
            rows::<3>(m, n, l, d, from, x, i);
            i += 3;
        } else {
            rows::<1>(m, n, l, d, from, x, i);
            i += 1;
        }
    }
}

// N rows from i on: the columns from the first to the last, then from the last to the first.
fn rows<const N: usize>(
    m: usize,
    n: usize,
    l: &[f64],
    d: &[f64],
    from: &[f64],
    x: &mut [f64],
    i: usize,
)
    requires { (i + N ≤ m) × (length l.now ≡ n * n) × (length d.now ≡ n) × (length from.now ≡ m * n) × (length x.old ≡ m * n) }
    ensures { RowsSolved m n (ldlt_right_matsolve m n l.now d.now from.now) i N x.old x.new }
{
    for j in 0..n {
        let s = entries::<N>(m, n, from, i, j);
        let z = lost(m, n, &x[..], i, j, |t| (t, entry(l, n, n, j, t)), s);
        keep(m, n, x, i, j, z);
    }
    for u in 0..n {
        let j = n - 1 - u;
        let s = times(entries::<N>(m, n, &x[..], i, j), inverse_of(d[j]));
        let z = lost(
            m,
            n,
            &x[..],
            i,
            u,
            |v| (j + 1 + v, entry(l, n, n, j + 1 + v, j)),
            s,
        );
        keep(m, n, x, i, j, z);
    }
}

// N entries s, of the rows from i on, less what they lose in `count` turns: a turn's term is a column and the factor of it.
fn lost<const N: usize, F: Fn(usize) -> (usize, f64)>(
    m: usize,
    n: usize,
    x: &[f64],
    i: usize,
    count: usize,
    term: F,
    s: [f64; N],
) -> [f64; N]
    requires fits { (i + N ≤ m) × (length x.now ≡ m * n) }
    requires callable { (v : ℕ) → v < count → F.pre term v }
    requires within { (v : ℕ) (z : _) → v < count → F.post term v z → z.0 < n }
    ensures { (c : ℕ → ℕ) (b : ℕ → Float) → ((v : ℕ) (z : _) → v < count → F.post term v z → (z.0 ≡ c v) × (z.1 ≡ b v)) → Holds N (λ q. lost m x.now (i + q) c b count (slice_index_or s.entry q nan)) result }
{
    let mut z = s;
    for v in 0..count {
        let (t, by) = term(v);
        for q in 0..N {
            z[q] = z[q] - entry(x, m, n, i + q, t) * by;
        }
    }
    z
}

// Each of N entries times a factor.
fn times<const N: usize>(s: [f64; N], by: f64) -> [f64; N]
    ensures { Holds N (λ q. mul binary64 (slice_index_or s.entry q nan) by) result }
{
    let mut z = s;
    for q in 0..N {
        z[q] = z[q] * by;
    }
    z
}
