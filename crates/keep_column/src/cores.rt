// The rows of a finished column, where the plan's tables are known to be good.
// Kept: that w is not 0 and how long a unit factor is, as facts: a block with its sizes would be a struct made for each row of the loop.
ghost use Rattle.std.specs.Prelude.{◌≡◌, ◌+◌, ◌*◌, ◌<◌, ◌≤◌, length};
ghost use Rattle.tables.specs.Verdict.{at};
ghost use Rattle.block_product.specs.Working.{slot};
ghost use Rattle.keep_column.specs.Keep.{KeepFit, Keeps, KeptRow};

use lists::Tables;
use tiled_multiply::cores::multiply;

// For all rows of column j, from L's values and its unit factor in `diag`: Q(i) goes to the cache, at the place that L(i, j) has in `l_values`, as
// far as the cache is long enough.
pub fn keep_column(t: &Tables, j: usize, l_values: &[f64], diag: &[f64], cache: &mut [f64])
    requires j_in_bounds { (j < length t.now.sizes.now) × (j + 1 < length t.now.l_starts.now) × (j < length t.now.unit_starts.now) }
    requires j_nonzero { (0 < at t.now.sizes.now j) × (at t.now.sizes.now j ≤ 16) × (at t.now.unit_starts.now j + at t.now.sizes.now j * at t.now.sizes.now j ≤ length diag.now) }
    requires keep_fit { KeepFit t.now.sizes.now t.now.l_rows.now t.now.l_offsets.now j (at t.now.l_starts.now j) (at t.now.l_starts.now (j + 1)) (length l_values.now) }
    ensures { Keeps t.now.sizes.now t.now.l_rows.now t.now.l_offsets.now j (at t.now.l_starts.now j) (at t.now.l_starts.now (j + 1)) l_values.now (slot (at t.now.unit_starts.now j) (at t.now.sizes.now j * at t.now.sizes.now j) diag.now) cache.old cache.new }
{
    let from = t.l_starts[j] as usize;
    let end = t.l_starts[j + 1] as usize;
    let w = t.sizes[j] as usize;
    let first = t.unit_starts[j] as usize;
    let last = first + w * w;
    let unit = &diag[first..last];
    for u in from..end {
        let i = t.l_rows[u] as usize;
        let h = t.sizes[i] as usize;
        let o = t.l_offsets[u] as usize;
        keep_row(h, w, o, l_values, unit, cache);
    }
}

// For one row, whose body begins at o.
fn keep_row(h: usize, w: usize, o: usize, values: &[f64], unit: &[f64], cache: &mut [f64])
    requires { (0 < w) × (o + h * w ≤ length values.now) × (length unit.now ≡ w * w) }
    ensures { KeptRow h w o values.now unit.now cache.old cache.new }
{
    let end = o + h * w;
    if end <= cache.len() {
        multiply(h, w, w, &values[o..end], unit, &mut cache[o..end]);
    }
}
