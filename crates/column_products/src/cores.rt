// The block products of column j by column k, where the plan's tables are known to be good.
// Kept: that w is not 0 and how long a unit factor and a d are, as facts: a block with its sizes would be a struct made for each column k from parts of longer
// lists, for the one test that `scaled_by_d` makes of it.
ghost use Rattle.std.specs.Prelude.{◌≡◌, ◌+◌, ◌-◌, ◌*◌, ◌^◌, ◌<◌, ◌≤◌, length, take};
ghost use Rattle.tables.specs.Verdict.{at};
ghost use Rattle.column_products.specs.Columns.{plan_of, PlacesFit, FactorsFit, ScaledByD, ColumnProducts, SameWorking};

use block_product::cores::{Pair, multiply_diag};
use lists::Tables;
use row_products::cores::{Held, Rows, apply_rows};
use tiled_product::cores::times_diag_core;

// What the products of a column are worked out from, beside the tables. It is only read.
#[derive(Clone, Copy, Drop)]
pub struct Inputs<'a> {
    // Where block (i, j) begins in the column being worked, by i.
    pub places: &'a [u32],
    // The numbers of the finished columns, as `lists::Numbers` has them.
    pub l_values: &'a [f64],
    pub diag: &'a [f64],
    pub d: &'a [f64],
    pub cache: &'a [f64],
}

// The column being worked, and the rooms for its products.
#[derive(Drop)]
pub struct Working<'a> {
    // For Q(j) d, and for Q(i).
    pub qj: &'a mut [f64],
    pub qi: &'a mut [f64],
    pub c: &'a mut [f64],
}

// Rows of column k: those at places `from` to `end` of the tables.
#[derive(Clone, Copy, Drop)]
pub struct Part {
    pub k: usize,
    pub from: usize,
    pub end: usize,
}

// By column k, whose row j stands at place `from` of the tables, and whose last row before `end`. Q(j) d is made once, and each Q that the
// cache has, Q(j) among them, is taken from it.
// Kept: the count is handed on to `apply_rows`.
pub fn apply_column(t: &Tables, f: &Inputs, j: usize, p: &Part, w: &mut Working, count: u64) -> u64
    requires places_fit { PlacesFit (plan_of t.now f.now.places.now) j p.now.k p.now.from p.now.end (length f.now.l_values.now) (length w.old.qi.now) (length w.old.c.now) }
    requires factors_fit { FactorsFit (plan_of t.now f.now.places.now) j p.now.k (length f.now.diag.now) (length f.now.d.now) (length w.old.qj.now) }
    requires from_lt_end { (p.now.from < p.now.end) × (at t.now.l_rows.now p.now.from ≡ j) × (count + (p.now.end - p.now.from) < 2 ^ 64) }
    ensures products { ColumnProducts (plan_of t.now f.now.places.now) j p.now.k p.now.from p.now.end f.now.l_values.now f.now.diag.now f.now.d.now f.now.cache.now w.old.c.now count w.new.c.now result }
    ensures same { SameWorking w.old w.new }
{
    let qj = &mut *w.qj;
    let qi = &mut *w.qi;
    let c = &mut *w.c;
    let k = p.k;
    let hj = t.sizes[j] as usize;
    let wk = t.sizes[k] as usize;
    let room = hj * wk;
    let o = t.l_offsets[p.from] as usize;
    let u = t.unit_starts[k] as usize;
    let u_end = u + wk * wk;
    let s = t.d_starts[k] as usize;
    let s_end = s + wk;
    let pair = Pair {
        sizes: t.sizes,
        j,
        k,
    };
    let held = Held {
        pair,
        values: f.l_values,
        cache: f.cache,
        unit: &f.diag[u..u_end],
    };
    scaled_by_d(hj, wk, o, &held, &f.d[s..s_end], qj);
    let rows = Rows {
        rows: &t.l_rows[p.from..p.end],
        offsets: &t.l_offsets[p.from..p.end],
    };
    let by = &*qj;
    apply_rows(&held, &rows, f.places, &by[..room], qi, c, count)
}

// q begins with Q(j) d then, where L(j, k), of h rows and w columns, begins at o in L's values: with Q(j) from the cache, where it stands as
// L(j, k) does there, or worked out where the cache has no place for it.
fn scaled_by_d(h: usize, w: usize, o: usize, held: &Held, d: &[f64], q: &mut [f64])
    requires { (0 < w) × (o + h * w ≤ length held.now.values.now) × (length held.now.unit.now ≡ w * w) × (length d.now ≡ w) × (h * w ≤ length q.old) }
    ensures { ScaledByD h w o held.now.values.now held.now.cache.now held.now.unit.now d.now (take (h * w) q.new) }
{
    let room = h * w;
    let end = o + room;
    if end <= held.cache.len() {
        copy(&held.cache[o..end], &mut q[..room]);
        times_diag_core(h, w, d, &mut q[..room]);
        return;
    }
    multiply_diag(h, w, &held.values[o..end], held.unit, d, &mut q[..room]);
}

// Kept: by `copy_from_slice` the exported calls would ask for memmove, of which the archives for C have no need.
fn copy(from: &[f64], to: &mut [f64])
    requires { length to.old ≡ length from.now }
    ensures { to.new ≡ from.now }
{
    for t in 0..from.len() {
        to[t] = from[t];
    }
}
