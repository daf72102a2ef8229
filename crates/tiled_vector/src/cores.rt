// The two products where the lengths are known to be right.
// Kept: how long each slice is, as a fact about sizes that the slices of a call share: structs with sizes of their own would need as many facts, that these agree.
ghost use Rattle.std.specs.Prelude.{◌≡◌, ◌+◌, ◌*◌, ◌<◌, ◌≤◌, length, slice_index_or};
ghost use Rattle.std.specs.Float.{nan};
ghost use Rattle.scalar.specs.Block.{at, gain};
ghost use Rattle.kernel_vector.specs.Vector.{row_sum, sub_mat_plus_vec};
ghost use Rattle.kernel_vector_transpose.specs.VectorTranspose.{column_sum, sub_mat_transpose_plus_vec};
ghost use Rattle.tiled_product.specs.Tiled.{Holds};
ghost use Rattle.tiled_vector.specs.TiledVector.{less_held, less_from};

use scalar::cores::entry;
use tiled_product::cores::{entries, height};

// ---- rows

// y := y - A b, in tiles of rows.
// Kept: this loop over tiles of four rows, three or one stands at three places, here, in `tiled_product` and in `tiled_right`. Its step has a const parameter, which no
// closure takes, and a trait for it would need a struct of the call's arguments at each of them.
pub fn sub_rows(h: usize, w: usize, a: &[f64], y: &mut [f64], b: &[f64])
    requires { (length y.old ≡ h) × (length a.now ≡ h * w) × (length b.now ≡ w) }
    ensures { y.new ≡ sub_mat_plus_vec h w y.old a.now b.now }
{
    let mut r: usize = 0;
    // Kept: a turn goes on by the height of its tile, which depends on how many rows are left, and no range steps so.
    while r < h {
        let tile = height(h - r);
        if tile == 4 {
            rows::<4>(h, w, a, y, b, r);
            r += 4;
        } else if tile == 3 {
            rows::<3>(h, w, a, y, b, r);
            r += 3;
        } else {
            rows::<1>(h, w, a, y, b, r);
            r += 1;
        }
    }
}

// N of them, from r on.
fn rows<const N: usize>(h: usize, w: usize, a: &[f64], y: &mut [f64], b: &[f64], r: usize)
    requires { (r + N ≤ h) × (length y.old ≡ h) × (length a.now ≡ h * w) × (length b.now ≡ w) }
    ensures { y.new ≡ less_from (row_sum h w a.now b.now) r N y.old }
{
    let q = row_sums::<N>(h, w, a, b, r);
    less(y, r, q);
}

// The sums of N rows' products with b, from row r on, held in locals while c ascends.
fn row_sums<const N: usize>(h: usize, w: usize, a: &[f64], b: &[f64], r: usize) -> [f64; N]
    requires { (r + N ≤ h) × (length a.now ≡ h * w) × (length b.now ≡ w) }
    ensures { Holds N (λ q. row_sum h w a.now b.now (r + q)) result }
{
    let mut q = [0.0; N];
    for c in 0..w {
        q = gained(q, entries(h, w, a, r, c), b[c]);
    }
    q
}

// ---- columns

// x := x - Aᵀ b, in tiles of columns. Three at a time and no more: four columns side by side are no faster where A is near, and slower where it
// has to come from far.
pub fn sub_columns(h: usize, w: usize, a: &[f64], x: &mut [f64], b: &[f64])
    requires { (length x.old ≡ w) × (length a.now ≡ h * w) × (length b.now ≡ h) }
    ensures { x.new ≡ sub_mat_transpose_plus_vec h w x.old a.now b.now }
{
    let mut c: usize = 0;
    // Kept: a turn goes on by three or by one, as many as are left, and no range steps so.
    while c < w {
        if w - c < 3 {
            columns::<1>(h, w, a, x, b, c);
            c += 1;
        } else {
            columns::<3>(h, w, a, x, b, c);
            c += 3;
        }
    }
}

// N of them, from c on.
fn columns<const N: usize>(h: usize, w: usize, a: &[f64], x: &mut [f64], b: &[f64], c: usize)
    requires { (c + N ≤ w) × (length x.old ≡ w) × (length a.now ≡ h * w) × (length b.now ≡ h) }
    ensures { x.new ≡ less_from (column_sum h a.now b.now) c N x.old }
{
    let q = column_sums::<N>(h, w, a, b, c);
    less(x, c, q);
}

// The sums of N columns' products with b, from column c on, held in locals while r ascends.
fn column_sums<const N: usize>(h: usize, w: usize, a: &[f64], b: &[f64], c: usize) -> [f64; N]
    requires { (c + N ≤ w) × (length a.now ≡ h * w) × (length b.now ≡ h) }
    ensures { Holds N (λ q. column_sum h a.now b.now (c + q)) result }
{
    let mut q = [0.0; N];
    for r in 0..h {
        q = gained(q, across(h, w, a, r, c), b[r]);
    }
    q
}

// N entries of row r of A, from column c on.
fn across<const N: usize>(h: usize, w: usize, a: &[f64], r: usize, c: usize) -> [f64; N]
    requires { (r < h) × (c + N ≤ w) × (length a.now ≡ h * w) }
    ensures { Holds N (λ q. at a.now h r (c + q)) result }
{
    let mut s = [0.0; N];
    for q in 0..N {
        s[q] = entry(a, h, w, r, c + q);
    }
    s
}

// ---- the sums, and what loses them

// Each of N sums with its product more.
fn gained<const N: usize>(s: [f64; N], a: [f64; N], by: f64) -> [f64; N]
    ensures { Holds N (λ q. gain (slice_index_or s.entry q nan) (slice_index_or a.entry q nan) by) result }
{
    let mut z = s;
    for q in 0..N {
        z[q] = z[q] + a[q] * by;
    }
    z
}

// N numbers of z from i on lose their sums.
fn less<const N: usize>(z: &mut [f64], i: usize, s: [f64; N])
    requires { i + N ≤ length z.old }
    ensures { z.new ≡ less_held i N s.entry z.old }
{
    for q in 0..N {
        z[i + q] = z[i + q] - s[q];
    }
}
