// One block product, where every block is known to lie in its slice.
// Kept: how long a block is, as a fact beside its sizes: a block with its sizes would be a struct made for each product, and taken apart at once by the cores
// below, which ask for the sizes and the slice.
ghost use Rattle.std.specs.Prelude.{◌≡◌, ◌+◌, ◌*◌, ◌^◌, ◌<◌, ◌≤◌, length};
ghost use Rattle.tables.specs.Verdict.{at};
ghost use Rattle.machine.specs.Machine.{mat_product};
ghost use Rattle.tiled_product.specs.Tiled.{times_diag};
ghost use Rattle.block_product.specs.Working.{OneProduct};

use tiled_multiply::cores::multiply;
use tiled_product::cores::{sub_mat_mat_t_core, times_diag_core};

// Column j, which is being worked, and a column k that reaches it.
#[derive(Clone, Copy, Drop)]
pub struct Pair<'a> {
    // The dimension of each block.
    pub sizes: &'a [u32],
    pub j: usize,
    pub k: usize,
}

// Block (i, j), which lies in the working column c from `place` on, loses Q(i) d Q(j)ᵀ. qj is Q(j) d, which serves all rows i, and qi
// is Q(i). The count comes back one greater.
// Kept: the count is handed in and back, so that what is counted and what is worked are one promise. If each call answered how many products it made, this one
// would answer 1, and each call above would add where it hands on.
pub fn block_product(
    p: &Pair,
    i: usize,
    qj: &[f64],
    qi: &[f64],
    c: &mut [f64],
    place: usize,
    count: u64,
) -> u64
    requires i_in_bounds { (i < length p.now.sizes.now) × (p.now.j < length p.now.sizes.now) × (p.now.k < length p.now.sizes.now) × (count + 1 < 2 ^ 64) }
    requires qi_len { (length qi.now ≡ at p.now.sizes.now i * at p.now.sizes.now p.now.k) × (length qj.now ≡ at p.now.sizes.now p.now.j * at p.now.sizes.now p.now.k) × (place + at p.now.sizes.now i * at p.now.sizes.now p.now.j ≤ length c.old) }
    ensures { OneProduct (at p.now.sizes.now) i p.now.j p.now.k place qi.now qj.now c.old count c.new result }
{
    let hi = p.sizes[i] as usize;
    let hj = p.sizes[p.j] as usize;
    let wk = p.sizes[p.k] as usize;
    let end = place + hi * hj;
    sub_mat_mat_t_core(hi, hj, wk, &mut c[place..end], qi, qj);
    count + 1
}

// q becomes A B diag(d), A of h rows and w columns, B of w rows and columns, whatever q was.
pub fn multiply_diag(h: usize, w: usize, a: &[f64], b: &[f64], d: &[f64], q: &mut [f64])
    requires { (0 < w) × (length a.now ≡ h * w) × (length b.now ≡ w * w) × (length d.now ≡ w) × (length q.old ≡ h * w) }
    ensures { q.new ≡ times_diag h w d.now (mat_product h w w a.now b.now) }
{
    multiply(h, w, w, a, b, q);
    times_diag_core(h, w, d, q);
}
