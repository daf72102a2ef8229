// The block products (i, j, k) of column j by rows i of column k, where the tables are known to be good. Block (i, j) of the working
// column c begins at places[i], and that is all that is known here of how the column is laid out.
ghost use Rattle.std.specs.Prelude.{◌≡◌, ◌+◌, ◌*◌, ◌^◌, ◌<◌, ◌≤◌, length};
ghost use Rattle.tables.specs.Verdict.{at};
ghost use Rattle.row_products.specs.Rows.{RowsFit, RowProduct, RowProducts};

use block_product::cores::{Pair, block_product};
use tiled_multiply::cores::multiply;

// A pair of columns, with what column k is made of. Q of a row stands in the cache as the row's body does in `values`, as far as the cache is
// long enough.
#[derive(Clone, Copy, Drop)]
pub struct Held<'a> {
    pub pair: Pair<'a>,
    pub values: &'a [f64],
    pub cache: &'a [f64],
    // The unit factor.
    pub unit: &'a [f64],
}

// Some rows of column k, in their order.
#[derive(Clone, Copy, Drop)]
pub struct Rows<'a> {
    pub rows: &'a [u32],
    // Where the body of each begins in L's values.
    pub offsets: &'a [u32],
}

// One of them.
#[derive(Clone, Copy, Drop)]
struct Row {
    i: usize,
    // Where its body begins in L's values, and its block in the working column.
    o: usize,
    place: usize,
}

// For each of these rows, whose block begins at places[i]; qj is Q(j) d. Q(i) is taken from the cache, or worked out in qi where the cache has
// no place for it.
// Kept: the count is handed on to `block_product`, which adds to it.
pub fn apply_rows(
    held: &Held,
    r: &Rows,
    places: &[u32],
    qj: &[f64],
    qi: &mut [f64],
    c: &mut [f64],
    count: u64,
) -> u64
    requires rows_fit { RowsFit held.now.pair.sizes.now places.now r.now.rows.now r.now.offsets.now held.now.pair.j held.now.pair.k (length held.now.values.now) (length qi.old) (length c.old) }
    requires j_in_bounds { (held.now.pair.j < length held.now.pair.sizes.now) × (held.now.pair.k < length held.now.pair.sizes.now) × (0 < at held.now.pair.sizes.now held.now.pair.k) × (count + length r.now.rows.now < 2 ^ 64) }
    requires unit_len { (length held.now.unit.now ≡ at held.now.pair.sizes.now held.now.pair.k * at held.now.pair.sizes.now held.now.pair.k) × (length qj.now ≡ at held.now.pair.sizes.now held.now.pair.j * at held.now.pair.sizes.now held.now.pair.k) }
    ensures { RowProducts (at held.now.pair.sizes.now) (at places.now) held.now.pair.j held.now.pair.k r.now.rows.now r.now.offsets.now held.now.values.now held.now.cache.now held.now.unit.now qj.now c.old count c.new result }
{
    let mut n = count;
    // Kept: the offset by its place: a loop over a `zip` of rows and offsets goes by what the iterator has left, where the contract counts from the first row on.
    for (t, &row) in r.rows.iter().enumerate() {
        let i = row as usize;
        let o = r.offsets[t] as usize;
        let place = places[i] as usize;
        n = apply_row(held, &Row { i, o, place }, qj, qi, c, n);
    }
    n
}

// For one row.
// Kept: the count is handed on to `block_product`, which adds to it.
fn apply_row(held: &Held, r: &Row, qj: &[f64], qi: &mut [f64], c: &mut [f64], count: u64) -> u64
    requires i_in_bounds { (r.now.i < length held.now.pair.sizes.now) × (held.now.pair.j < length held.now.pair.sizes.now) × (held.now.pair.k < length held.now.pair.sizes.now) × (0 < at held.now.pair.sizes.now held.now.pair.k) × (count + 1 < 2 ^ 64) }
    requires k_in_bounds { (r.now.o + at held.now.pair.sizes.now r.now.i * at held.now.pair.sizes.now held.now.pair.k ≤ length held.now.values.now) × (at held.now.pair.sizes.now r.now.i * at held.now.pair.sizes.now held.now.pair.k ≤ length qi.old) × (r.now.place + at held.now.pair.sizes.now r.now.i * at held.now.pair.sizes.now held.now.pair.j ≤ length c.old) }
    requires unit_len { (length held.now.unit.now ≡ at held.now.pair.sizes.now held.now.pair.k * at held.now.pair.sizes.now held.now.pair.k) × (length qj.now ≡ at held.now.pair.sizes.now held.now.pair.j * at held.now.pair.sizes.now held.now.pair.k) }
    ensures { RowProduct (at held.now.pair.sizes.now) r.now.i held.now.pair.j held.now.pair.k r.now.o r.now.place held.now.values.now held.now.cache.now held.now.unit.now qj.now c.old count c.new result }
{
    let p = &held.pair;
    let sizes = p.sizes;
    let h = sizes[r.i] as usize;
    let w = sizes[p.k] as usize;
    let room = h * w;
    let end = r.o + room;
    if end <= held.cache.len() {
        return block_product(p, r.i, qj, &held.cache[r.o..end], c, r.place, count);
    }
    multiply(h, w, w, &held.values[r.o..end], held.unit, &mut qi[..room]);
    block_product(p, r.i, qj, &qi[..room], c, r.place, count)
}
