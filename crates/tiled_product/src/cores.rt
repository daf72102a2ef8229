// Products in tiles, where the lengths are known to be right: some rows of three columns are held in locals while the turns ascend.
// Kept: how long each slice is, as a fact about sizes that the slices of a call share: structs with sizes of their own would need as many facts, that these agree.
ghost use Rattle.std.specs.Prelude.{◌≡◌, ◌+◌, ◌*◌, ◌<◌, ◌≤◌, length};
ghost use Rattle.scalar.specs.Block.{at, lose};
ghost use Rattle.tiled_product.specs.Tiled.{Holds, put_down, Formula, Stripped, Stands, Onward, each_entry, worked, worked_on, tiled_by, times_diag, sub_mat_mat_t};

use kernel_diag_right::cores::scale_columns;
use scalar::cores::{entry, store};

// ---- some entries of a column, one below the other: how many is known to the compiler, so that no loop over them is left

// N entries of column j of y, from row i on.
// Kept: a loop over the places of an array, here and in `firsts`, `tiled_vector` and `tiled_right`: what it holds after q places is said of the array (`Holds q`), where `from_fn` takes a closure
// that has to say the same of each place.
pub fn entries<const N: usize>(h: usize, w: usize, y: &[f64], i: usize, j: usize) -> [f64; N]
    requires { (i + N ≤ h) × (j < w) × (length y.now ≡ h * w) }
    ensures { Holds N (λ q. at y.now h (i + q) j) result }
{
    let mut s = [0.0; N];
    for q in 0..N {
        s[q] = entry(y, h, w, i + q, j);
    }
    s
}

// N entries go to column j of y, from row i on. Here the compiler sees that they are neighbours, and stores them in pairs: a load of two that
// were stored one by one has to wait.
pub fn keep<const N: usize>(h: usize, w: usize, y: &mut [f64], i: usize, j: usize, s: [f64; N])
    requires { (i + N ≤ h) × (j < w) × (length y.old ≡ h * w) }
    ensures { y.new ≡ put_down h j i N s.entry y.old }
{
    for q in 0..N {
        store(y, h, w, i + q, j, s[q]);
    }
}

// How many rows the next tile has, of those left.
pub fn height(left: usize) -> usize
    requires { 0 < left }
    ensures { result ≤ left }
{
    if left == 3 {
        3
    } else if left == 6 {
        3
    } else if 4 <= left {
        4
    } else {
        1
    }
}

// ---- a product by tiles
// Kept: the height and the width of y as numbers beside the product: its trait would need two methods more, which only say them again.

// A product of two blocks, by what its entries are worked out from.
pub trait Product {
    ghost formula: { Self → Formula };

    // How many turns there are.
    fn turns(&self) -> usize
        ensures { result ≡ (formula self.now).turns };

    // Where entry (r, c) starts from, where x stands there.
    fn first(&self, r: usize, c: usize, x: f64) -> f64
        requires { (r < (formula self.now).rows) × (c < (formula self.now).columns) }
        ensures { result ≡ (formula self.now).first r c x };

    // What row r meets at turn t.
    fn left(&self, r: usize, t: usize) -> f64
        requires { (r < (formula self.now).rows) × (t < (formula self.now).turns) }
        ensures { result ≡ (formula self.now).left r t };

    // What column c meets at turn t.
    fn right(&self, c: usize, t: usize) -> f64
        requires { (c < (formula self.now).columns) × (t < (formula self.now).turns) }
        ensures { result ≡ (formula self.now).right c t };

    // The entry s, after it has met a and b.
    fn turn(&self, s: f64, a: f64, b: f64) -> f64
        ensures { result ≡ (formula self.now).turn s a b };
}

// Three columns, which need not differ.
// Kept: a contract speaks of each by its name; of `[usize; 3]` it would say the entry of a list at a place, some thirty times.
#[derive(Clone, Copy)]
pub struct Three {
    pub c0: usize,
    pub c1: usize,
    pub c2: usize,
}

// A product of one entry goes to y.
#[inline(always)]
pub fn one<P: Product>(p: &P, y: &mut [f64])
    requires { ((P.formula p.now).rows ≡ 1) × ((P.formula p.now).columns ≡ 1) × (length y.old ≡ 1 * 1) }
    ensures { y.new ≡ each_entry 1 1 (worked (P.formula p.now)) y.old }
{
    let mut s = p.first(0, 0, entry(&y[..], 1, 1, 0, 0));
    for t in 0..p.turns() {
        s = p.turn(s, p.left(0, t), p.right(0, t));
    }
    store(y, 1, 1, 0, 0, s);
}

// A product goes to y, of h rows and w columns, three columns at a time; past the last column the last stands in, and is written twice with
// the same bits.
#[inline(always)]
pub fn strips<P: Product>(p: &P, h: usize, w: usize, y: &mut [f64])
    requires { (h ≡ (P.formula p.now).rows) × (w ≡ (P.formula p.now).columns) × (length y.old ≡ h * w) }
    ensures { y.new ≡ each_entry h w (worked (P.formula p.now)) y.old }
{
    let mut j: usize = 0;
    // Kept: `for j in (0..w).step_by(3)` proves too, but takes five instructions more for each three columns.
    while j < w {
        strip(
            p,
            h,
            w,
            y,
            Three {
                c0: j,
                c1: after(w, j, 1),
                c2: after(w, j, 2),
            },
        );
        j = onward(w, j);
    }
}

// The column `ahead` after j, or the last.
fn after(w: usize, j: usize, ahead: usize) -> usize
    requires { j < w }
    ensures { Stands w j ahead result }
{
    if ahead < w - j { j + ahead } else { w - 1 }
}

// The column three after j, or w where there is none.
fn onward(w: usize, j: usize) -> usize
    requires { j < w }
    ensures { Onward w j result }
{
    if 3 < w - j { j + 3 } else { w }
}

// Three columns of the product, in tiles of four rows, of three where that leaves none over, and of one.
#[inline(always)]
fn strip<P: Product>(p: &P, h: usize, w: usize, y: &mut [f64], j: Three)
    requires { (h ≡ (P.formula p.now).rows) × (w ≡ (P.formula p.now).columns) × (j.c0 < w) × (j.c1 < w) × (j.c2 < w) × (length y.old ≡ h * w) }
    ensures { Stripped h w (worked_on (P.formula p.now) h y.old) j.c0 j.c1 j.c2 h y.old y.new }
{
    let mut i: usize = 0;
    // Kept: a turn goes on by the height of its tile, which depends on how many rows are left, and no range steps so.
    while i < h {
        let tall = height(h - i);
        if tall == 4 {
            tile::<4, P>(p, h, w, y, j, i);
            i += 4;
        } else if tall == 3 {
            tile::<3, P>(p, h, w, y, j, i);
            i += 3;
        } else {
            tile::<1, P>(p, h, w, y, j, i);
            i += 1;
        }
    }
}

// N rows from i on, held in locals while t ascends.
#[inline(always)]
fn tile<const N: usize, P: Product>(p: &P, h: usize, w: usize, y: &mut [f64], j: Three, i: usize)
    requires { (i + N ≤ h) × (h ≡ (P.formula p.now).rows) × (w ≡ (P.formula p.now).columns) × (j.c0 < w) × (j.c1 < w) × (j.c2 < w) × (length y.old ≡ h * w) }
    ensures { y.new ≡ tiled_by h (worked_on (P.formula p.now) h y.old) j.c0 j.c1 j.c2 i N y.old }
{
    let mut s0 = firsts::<N, P>(p, h, w, &y[..], i, j.c0);
    let mut s1 = firsts::<N, P>(p, h, w, &y[..], i, j.c1);
    let mut s2 = firsts::<N, P>(p, h, w, &y[..], i, j.c2);
    for t in 0..p.turns() {
        let (b0, b1, b2) = (p.right(j.c0, t), p.right(j.c1, t), p.right(j.c2, t));
        for q in 0..N {
            let a = p.left(i + q, t);
            s0[q] = p.turn(s0[q], a, b0);
            s1[q] = p.turn(s1[q], a, b1);
            s2[q] = p.turn(s2[q], a, b2);
        }
    }
    keep(h, w, y, i, j.c0, s0);
    keep(h, w, y, i, j.c1, s1);
    keep(h, w, y, i, j.c2, s2);
}

// Where N entries of column c start from.
#[inline(always)]
fn firsts<const N: usize, P: Product>(
    p: &P,
    h: usize,
    w: usize,
    y: &[f64],
    i: usize,
    c: usize,
) -> [f64; N]
    requires { (i + N ≤ h) × (h ≡ (P.formula p.now).rows) × (w ≡ (P.formula p.now).columns) × (c < w) × (length y.now ≡ h * w) }
    ensures { Holds N (λ q. (P.formula p.now).first (i + q) c (at y.now h (i + q) c)) result }
{
    let mut s = [0.0; N];
    for q in 0..N {
        s[q] = p.first(i + q, c, entry(y, h, w, i + q, c));
    }
    s
}

// ---- the products that lose

// What is taken from a block: A Bᵀ, A of m rows and k columns, B of n rows.
#[derive(Drop)]
struct Loss<'a> {
    m: usize,
    n: usize,
    k: usize,
    a: &'a [f64],
    b: &'a [f64],
    ghost long_a: { length a.now ≡ m * k },
    ghost long_b: { length b.now ≡ n * k },
}

// An entry starts from what stands there, and loses a product at each turn.
// Kept: `first`, `left` and `right` are what the trait asks for, each a line that reads another thing.
impl<'a> Product for Loss<'a> {
    ghost formula = { λ p. record { rows = p.m; columns = p.n; turns = p.k; first = λ r c x. x; left = at p.a.now p.m; right = at p.b.now p.n; turn = lose } };

    fn turns(&self) -> usize {
        self.k
    }

    fn first(&self, _r: usize, _c: usize, x: f64) -> f64 {
        x
    }

    fn left(&self, r: usize, t: usize) -> f64 {
        entry(self.a, self.m, self.k, r, t)
    }

    fn right(&self, c: usize, t: usize) -> f64 {
        entry(self.b, self.n, self.k, c, t)
    }

    fn turn(&self, s: f64, a: f64, b: f64) -> f64 {
        s - a * b
    }
}

// B := B diag(d)
pub fn times_diag_core(n: usize, k: usize, d: &[f64], b: &mut [f64])
    requires { (length d.now ≡ k) × (length b.old ≡ n * k) }
    ensures { b.new ≡ times_diag n k d.now b.old }
{
    scale_columns(n, k, b, |t| d[t]);
}

// Y := Y - A Bᵀ
// Kept: one choice between `one` and `strips`, as in `tiled_multiply`: a function of both would hand the product by reference to one that is no part of it, `many`, and so
// store its seven words at each call, where they are made anew there.
pub fn sub_mat_mat_t_core(m: usize, n: usize, k: usize, y: &mut [f64], a: &[f64], b: &[f64])
    requires { (length y.old ≡ m * n) × (length a.now ≡ m * k) × (length b.now ≡ n * k) }
    ensures { y.new ≡ sub_mat_mat_t m n k y.old a.now b.now }
{
    if m == 1 {
        if n == 1 {
            one(
                &Loss {
                    m: 1,
                    n: 1,
                    k,
                    a,
                    b,
                },
                y,
            );
            return;
        }
    }
    many(m, n, k, y, a, b);
}

// The same for any number of entries. It is no part of its caller, so that a product of one entry has no registers to save.
#[inline(never)]
fn many(m: usize, n: usize, k: usize, y: &mut [f64], a: &[f64], b: &[f64])
    requires { (length y.old ≡ m * n) × (length a.now ≡ m * k) × (length b.now ≡ n * k) }
    ensures { y.new ≡ sub_mat_mat_t m n k y.old a.now b.now }
{
    strips(&Loss { m, n, k, a, b }, m, n, y);
}
