// The end of a column, where the plan's tables are known to be good.
// Kept: how long a unit factor and a d are, as a fact beside their size: a diagonal block with its size would be a struct made for each column, and taken apart
// at each row of its loop by the core, which asks for the size and the slices.
ghost use Rattle.std.specs.Prelude.{◌≡◌, ◌+◌, ◌*◌, ◌<◌, length};
ghost use Rattle.tables.specs.Verdict.{at};
ghost use Rattle.dense_solve_right.specs.SolveRight.{ldlt_right_matsolve};
ghost use Rattle.block_product.specs.Working.{slot};
ghost use Rattle.layout.specs.Layout.{laid, RowsLaid, Placed, DiagonalLaid};
ghost use Rattle.finish_column.specs.Steps.{BlockFit, Decomposes, StoreFit, Stores};
ghost use Rattle.finish_column.specs.Finish.{Finishes, SameNumbers};

use block_diag_ldlt::cores::{BlockError, decompose_core};
use dense_pivots::LdltResult;
use lists::{Numbers, Tables};
use tiled_right::cores::ldlt_right_matsolve_tiled;

// The diagonal block of column j is decomposed, and its unit factor and d go to their places. Where that is refused they are NaNs, and
// no row is stored; otherwise the rows of the column, solved by them from the right, go to their places in L's values. The cache is not
// touched.
pub fn finish_column(
    t: &Tables,
    places: &[u32],
    j: usize,
    tol: f64,
    c: &[f64],
    f: &mut Numbers,
) -> Result<LdltResult, BlockError>
    requires rows_laid { RowsLaid (laid t.now) (length t.now.sizes.now) (length f.old.l_values.now) (length c.now) }
    requires diagonal_laid { DiagonalLaid t.now.sizes.now t.now.unit_starts.now t.now.d_starts.now (length t.now.sizes.now) (length f.old.diag.now) (length f.old.d.now) }
    requires placed { Placed (laid t.now) places.now j × (j < length t.now.sizes.now) × (length places.now ≡ length t.now.sizes.now) }
    ensures finishes { Finishes (laid t.now) t.now.unit_starts.now t.now.d_starts.now tol j places.now c.now f.old.l_values.now f.old.diag.now f.old.d.now (result, f.new.l_values.now, f.new.diag.now, f.new.d.now) }
    ensures cache { f.new.cache.now ≡ f.old.cache.now }
    ensures same { SameNumbers f.old f.new }
{
    let l_values = &mut *f.l_values;
    let diag = &mut *f.diag;
    let d = &mut *f.d;
    let k = decompose_at(t, places, j, tol, c, diag, d)?;
    store_at(t, places, j, c, &diag[..], &d[..], l_values);
    Ok(k)
}

// The unit factor and d of the diagonal block of column j go to their places.
fn decompose_at(
    t: &Tables,
    places: &[u32],
    j: usize,
    tol: f64,
    c: &[f64],
    diag: &mut [f64],
    d: &mut [f64],
) -> Result<LdltResult, BlockError>
    requires { BlockFit t.now.sizes.now places.now t.now.unit_starts.now t.now.d_starts.now j (length c.now) (length diag.old) (length d.old) }
    ensures { Decomposes t.now.sizes.now places.now t.now.unit_starts.now t.now.d_starts.now j tol c.now diag.old d.old result diag.new d.new }
{
    let w = t.sizes[j] as usize;
    let area = w * w;
    let place = places[j] as usize;
    let place_end = place + area;
    let u = t.unit_starts[j] as usize;
    let u_end = u + area;
    let s = t.d_starts[j] as usize;
    let s_end = s + w;
    decompose_core(
        w,
        &c[place..place_end],
        &mut diag[u..u_end],
        &mut d[s..s_end],
        tol,
    )
}

// The rows of column j are solved by the factors that stand in diag and d, and go to their places in L's values.
fn store_at(
    t: &Tables,
    places: &[u32],
    j: usize,
    c: &[f64],
    diag: &[f64],
    d: &[f64],
    values: &mut [f64],
)
    requires block_fit { BlockFit t.now.sizes.now places.now t.now.unit_starts.now t.now.d_starts.now j (length c.now) (length diag.now) (length d.now) }
    requires store_fit { StoreFit (laid t.now) places.now j (length c.now) (length values.old) }
    ensures { Stores (laid t.now) places.now j (at t.now.l_starts.now (j + 1)) (slot (at t.now.unit_starts.now j) (at t.now.sizes.now j * at t.now.sizes.now j) diag.now) (slot (at t.now.d_starts.now j) (at t.now.sizes.now j) d.now) c.now values.old values.new }
{
    let w = t.sizes[j] as usize;
    let u = t.unit_starts[j] as usize;
    let u_end = u + w * w;
    let s = t.d_starts[j] as usize;
    let s_end = s + w;
    store_rows(t, places, j, &diag[u..u_end], &d[s..s_end], c, values);
}

// The same with the unit factor and d of column j.
fn store_rows(
    t: &Tables,
    places: &[u32],
    j: usize,
    unit: &[f64],
    d: &[f64],
    c: &[f64],
    values: &mut [f64],
)
    requires store_fit { StoreFit (laid t.now) places.now j (length c.now) (length values.old) }
    requires j_in_bounds { (j < length t.now.sizes.now) × (length unit.now ≡ at t.now.sizes.now j * at t.now.sizes.now j) × (length d.now ≡ at t.now.sizes.now j) }
    ensures { Stores (laid t.now) places.now j (at t.now.l_starts.now (j + 1)) unit.now d.now c.now values.old values.new }
{
    let w = t.sizes[j] as usize;
    let from = t.l_starts[j] as usize;
    let end = t.l_starts[j + 1] as usize;
    for u in from..end {
        let i = t.l_rows[u] as usize;
        let h = t.sizes[i] as usize;
        let area = h * w;
        let place = places[i] as usize;
        let place_end = place + area;
        let o = t.l_offsets[u] as usize;
        let o_end = o + area;
        store_block(h, w, unit, d, &c[place..place_end], &mut values[o..o_end]);
    }
}

// x becomes the block `from`, of h rows and w columns, solved from the right.
fn store_block(h: usize, w: usize, unit: &[f64], d: &[f64], from: &[f64], x: &mut [f64])
    requires { (length unit.now ≡ w * w) × (length d.now ≡ w) × (length from.now ≡ h * w) × (length x.old ≡ h * w) }
    ensures { x.new ≡ ldlt_right_matsolve h w unit.now d.now from.now }
{
    ldlt_right_matsolve_tiled(h, w, unit, d, from, x);
}
