// The sweep, where the factor's tables are known to be good. y holds the vector by new number, block k from starts[k] on.
// Kept: what each of these calls asks, and each of its two directions, is one record, `Laid`.
ghost use Rattle.std.specs.Prelude.{◌≡◌, ◌+◌, ◌*◌, ◌<◌, ◌≤◌, length};
ghost use Rattle.tables.specs.Verdict.{at};
ghost use Rattle.block_product.specs.Working.{slot};
ghost use Rattle.solution.specs.Flat.{RowFits};
ghost use Rattle.sweep.specs.Sweep.{Pass, Touches, Laid, rows_of, column_done, swept};

use crate::Rows;

// In which order the columns come, and what one row does.
pub trait Direction {
    ghost pass: { Pass };

    // The column of turn t of n.
    fn column(n: usize, t: usize) -> usize
        requires { t < n }
        ensures { (result ≡ pass.column n t) × (result < n) };

    // What the row with the body a, of h rows and w columns, does with the two parts of a vector that it touches: x are its column's numbers, y
    // its own, which stand behind them.
    fn row(h: usize, w: usize, a: &[f64], x: &mut [f64], y: &mut [f64])
        requires { (length x.old ≡ w) × (length y.old ≡ h) × (length a.now ≡ h * w) }
        ensures { Touches pass h w a.now x.old y.old x.new y.new };
}

// All columns, in the order of the direction.
pub fn sweep<D: Direction>(r: &Rows, y: &mut [f64])
    requires { Laid r.now (length y.old) }
    ensures { y.new ≡ swept D.pass (rows_of r.now) r.now.starts.now r.now.l_values.now (length r.now.sizes.now) y.old }
{
    let n = r.sizes.len();
    for t in 0..n {
        sweep_column::<D>(r, D::column(n, t), y);
    }
}

// The rows of column j, ascending.
fn sweep_column<D: Direction>(r: &Rows, j: usize, y: &mut [f64])
    requires { Laid r.now (length y.old) × (j < length r.now.sizes.now) }
    ensures { y.new ≡ column_done D.pass (rows_of r.now) r.now.starts.now r.now.l_values.now j y.old }
{
    let w = r.sizes[j] as usize;
    let s = r.starts[j] as usize;
    let from = r.l_starts[j] as usize;
    let end = r.l_starts[j + 1] as usize;
    for u in from..end {
        sweep_row::<D>(r, s, w, u, y);
    }
}

// The row at place u of the tables, of a column whose block has the w numbers of y from s on.
fn sweep_row<D: Direction>(r: &Rows, s: usize, w: usize, u: usize, y: &mut [f64])
    requires { RowFits r.now.sizes.now r.now.starts.now r.now.l_rows.now r.now.l_offsets.now s w u (length r.now.l_values.now) (length y.old) }
    ensures { y.new ≡ D.pass.row (at r.now.sizes.now (at r.now.l_rows.now u)) w (slot (at r.now.l_offsets.now u) (at r.now.sizes.now (at r.now.l_rows.now u) * w) r.now.l_values.now) s (at r.now.starts.now (at r.now.l_rows.now u)) y.old }
{
    let i = r.l_rows[u] as usize;
    let h = r.sizes[i] as usize;
    let t = r.starts[i] as usize;
    let o = r.l_offsets[u] as usize;
    let o_end = o + h * w;
    let s_end = s + w;
    let (front, back) = y.split_at_mut(t);
    D::row(
        h,
        w,
        &r.l_values[o..o_end],
        &mut front[s..s_end],
        &mut back[..h],
    );
}
