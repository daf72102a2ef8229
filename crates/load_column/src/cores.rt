// One column of the permuted matrix is loaded into the working column, where the tables are known to be good.
// Kept: `Source`, `Kept` and `ColumnRises`, each one named record of what the lists of a `Matrix` keep; and how long a body is, as a fact beside its sizes: a block
// with its sizes would be a struct made for each row of the loop.
ghost use Rattle.std.specs.Prelude.{◌≡◌, ℕ, ◌+◌, ◌-◌, ◌*◌, ◌<◌, ◌≤◌, not, map, length, ◌==◌, nat_lt, slice_set};
ghost use Rattle.std.specs.Float.{binary64};
ghost use Rattle.std.specs.Float.Ieee.{add};
ghost use Rattle.scalar.specs.Scalar.{nought};
ghost use Rattle.scalar.specs.Block.{within};
ghost use Rattle.tables.specs.Search.{first, fault};
ghost use Rattle.tables.specs.Verdict.{at};
ghost use Rattle.scalars.specs.Bodies.{transposed, landed};
ghost use Rattle.machine.specs.System.{System};
ghost use Rattle.block_product.specs.Working.{slot};
ghost use Rattle.layout.specs.Layout.{laid, RowsLaid};
ghost use Rattle.load_column.specs.Load.{Source, Fed, LoadedColumn};
ghost use Rattle.load_column.specs.Blocks.{ColumnRises, Kept, stored_block, block_at};

use lists::{Matrix, Tables};
use scalar::clear;
use scalar::cores::entry;

// Column j: its diagonal block first, then its rows as they lie in L's values. places[i] becomes where block (i, j) begins in c.
pub fn load_column(a: &Matrix, t: &Tables, j: usize, places: &mut [u32], c: &mut [f64])
    requires source { Source a.now.dims.now a.now.starts.now a.now.rows.now a.now.values.now a.now.bodies.now a.now.order.now t.now.sizes.now }
    requires rows_laid { RowsLaid (laid t.now) (length a.now.dims.now) (at t.now.l_offsets.now (length t.now.l_rows.now)) (length c.old) }
    requires j_in_bounds { (j < length a.now.dims.now) × (length places.old ≡ length a.now.dims.now) × (length c.old < 4294967296) }
    ensures { (s : System) → Fed s a.now.dims.now a.now.starts.now a.now.rows.now a.now.values.now a.now.order.now → LoadedColumn (laid t.now) s j places.new c.new }
{
    let wj = t.sizes[j] as usize;
    let own = wj * wj;
    let from = t.l_starts[j] as usize;
    let end = t.l_starts[j + 1] as usize;
    let base = t.l_offsets[from] as usize;
    load_at(a, t, j, j, 0, places, c);
    for u in from..end {
        let place = own + (t.l_offsets[u] as usize - base);
        let i = t.l_rows[u] as usize;
        load_at(a, t, i, j, place, places, c);
    }
}

// Block (i, j) is loaded into c from `place` on, and places[i] becomes `place`.
fn load_at(
    a: &Matrix,
    t: &Tables,
    i: usize,
    j: usize,
    place: usize,
    places: &mut [u32],
    c: &mut [f64],
)
    requires source { Source a.now.dims.now a.now.starts.now a.now.rows.now a.now.values.now a.now.bodies.now a.now.order.now t.now.sizes.now }
    requires i_in_bounds { (i < length a.now.dims.now) × (j < length a.now.dims.now) × (length places.old ≡ length a.now.dims.now) }
    requires j_in_bounds { (place + at t.now.sizes.now i * at t.now.sizes.now j ≤ length c.old) × (length c.old < 4294967296) × (place < 4294967296) }
    ensures places_after { places.new ≡ slice_set places.old i place }
    ensures c_after { c.new ≡ within place (at t.now.sizes.now i * at t.now.sizes.now j) (λ _. block_at a.now.dims.now a.now.starts.now a.now.rows.now a.now.values.now a.now.order.now i j) c.old }
{
    places[i] = place as u32;
    let end = place + t.sizes[i] as usize * t.sizes[j] as usize;
    load_block(a, i, j, &mut c[place..end]);
}

// Block (i, j): of its two old numbers the greater is A's row, the lesser A's column.
fn load_block(a: &Matrix, i: usize, j: usize, y: &mut [f64])
    requires kept { Kept a.now.dims.now a.now.starts.now a.now.rows.now a.now.values.now a.now.bodies.now }
    requires i_in_bounds { (i < length a.now.order.now) × (j < length a.now.order.now) × (at a.now.order.now i < length a.now.dims.now) × (at a.now.order.now j < length a.now.dims.now) }
    requires y_len { length y.old ≡ at a.now.dims.now (at a.now.order.now i) * at a.now.dims.now (at a.now.order.now j) }
    ensures { y.new ≡ block_at a.now.dims.now a.now.starts.now a.now.rows.now a.now.values.now a.now.order.now i j }
{
    let oi = a.order[i] as usize;
    let oj = a.order[j] as usize;
    if oi < oj {
        load_stored(a, oj, oi, true, y);
    } else {
        load_stored(a, oi, oj, false, y);
    }
}

// A's block (row, column), transposed where it lands above the diagonal; zeros where A stores none.
// Kept: `above` is a value and no step: the search, the part that is cut and what is known of it are the same for both, and two calls would write them twice.
fn load_stored(a: &Matrix, row: usize, column: usize, above: bool, y: &mut [f64])
    requires kept { Kept a.now.dims.now a.now.starts.now a.now.rows.now a.now.values.now a.now.bodies.now }
    requires row_in_bounds { (row < length a.now.dims.now) × (column < length a.now.dims.now) × (length y.old ≡ at a.now.dims.now row * at a.now.dims.now column) }
    ensures { y.new ≡ stored_block a.now.dims.now a.now.starts.now a.now.rows.now a.now.values.now above row column }
{
    match find_row(a.starts, a.rows, row, column) {
        Some(p) => load_body(
            a.dims[row] as usize,
            a.dims[column] as usize,
            above,
            body_at(a, p),
            y,
        ),
        None => clear(y),
    }
}

// The body of the block that A stores at place p.
fn body_at<'a>(a: &Matrix<'a>, p: usize) -> &'a [f64]
    requires { (p + 1 < length a.now.bodies.now) × (at a.now.bodies.now p ≤ at a.now.bodies.now (p + 1)) × (at a.now.bodies.now (p + 1) ≤ length a.now.values.now) }
    ensures { result.now ≡ slot (at a.now.bodies.now p) (at a.now.bodies.now (p + 1) - at a.now.bodies.now p) a.now.values.now }
{
    let b = a.bodies[p] as usize;
    let e = a.bodies[p + 1] as usize;
    &a.values[b..e]
}

// The place of A's block (row, column) among the stored ones, if A stores it.
pub fn find_row(starts: &[u32], rows: &[u32], row: usize, column: usize) -> Option<usize>
    requires { ColumnRises starts.now rows.now column }
    ensures { result ≡ fault (λ p. not (at rows.now p == row)) (at starts.now column) (at starts.now (column + 1)) }
{
    let end = starts[column + 1] as usize;
    let place = lower_bound(rows, starts[column] as usize, end, row);
    if place < end && rows[place] as usize == row {
        return Some(place);
    }
    None
}

// The first place of from..end whose row is not below `row`, and the end where each is: by halving, as the rows ascend.
pub fn lower_bound(rows: &[u32], from: usize, end: usize, row: usize) -> usize
    requires bounds { (from ≤ end) × (end ≤ length rows.now) }
    requires rises { (p q : ℕ) → from ≤ p → p < q → q < end → at rows.now p < at rows.now q }
    ensures { result ≡ first (λ p. nat_lt (at rows.now p) row) from end }
{
    from + rows[from..end].partition_point(|r| (*r as usize) < row)
}

// y becomes 0.0 + each number of a body of height h and width w, transposed where it lands above the diagonal.
// Kept: `above` chooses here, once for both places that a block can have. `scalars::cores::permute_body` is the same without 0.0 +.
fn load_body(h: usize, w: usize, above: bool, body: &[f64], y: &mut [f64])
    requires { (length body.now ≡ h * w) × (length y.old ≡ h * w) }
    ensures { y.new ≡ map (add binary64 nought) (landed above h w body.now) }
{
    if above {
        load_transposed(h, w, body, y);
    } else {
        load_plain(body, y);
    }
}

// y becomes 0.0 + each number of the body.
fn load_plain(body: &[f64], y: &mut [f64])
    requires { length y.old ≡ length body.now }
    ensures { y.new ≡ map (add binary64 nought) body.now }
{
    for (t, &v) in body.iter().enumerate() {
        y[t] = 0.0 + v;
    }
}

// y becomes 0.0 + each number of the transpose of a body of height h and width w.
// Kept: beside `scalars::cores::transpose`, which moves numbers as they stand: to call it, and add 0.0 then, would go over each block twice.
fn load_transposed(h: usize, w: usize, body: &[f64], y: &mut [f64])
    requires { (length body.now ≡ h * w) × (length y.old ≡ h * w) }
    ensures { y.new ≡ map (add binary64 nought) (transposed h w body.now) }
{
    let mut place = 0;
    for r in 0..h {
        for c in 0..w {
            y[place] = 0.0 + entry(body, h, w, r, c);
            place += 1;
        }
    }
}
