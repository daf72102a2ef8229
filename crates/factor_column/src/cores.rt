// One column of the factorization, where the plan's tables are known to be good.
// Kept: `Source` and `Grown`, which other contracts ask too: each is one named record, and each goes to another call here.
ghost use Rattle.std.specs.Prelude.{◌≡◌, ◌+◌, ◌*◌, ◌<◌, ◌≤◌, length};
ghost use Rattle.layout.specs.Layout.{laid, RowsLaid, DiagonalLaid};
ghost use Rattle.load_column.specs.Load.{Source};
ghost use Rattle.finish_column.specs.Finish.{SameNumbers};
ghost use Rattle.work_column.specs.Work.{Ready, Grown, SameScratch};
ghost use Rattle.factor_column.specs.Turn.{given_of, Turns, Counted, turned_of};

use block_diag_ldlt::cores::BlockError;
use column_products::cores::Inputs;
use dense_pivots::LdltResult;
use finish_column::cores::finish_column;
use keep_column::cores::keep_column;
use lists::{Matrix, Numbers, Tables};
use load_column::cores::load_column;
use work_column::cores::{Scratch, work_column};

// Column j of the factor of A. The cache keeps Q of the finished columns, as far as it is long enough. `places` is scratch: where block (i, j) begins
// in the column, by i. The answer is the number of products of all columns so far.
// Kept: the count is handed on to `work_column`, and the answer is that of all columns, which is what the loop over them keeps. And the places beside the
// scratch: the products only read them. Tried with both in one struct: Rattle does not cover that its two parts are lent to `load_column` at once.
pub fn factor_column(
    a: &Matrix,
    t: &Tables,
    j: usize,
    tol: f64,
    places: &mut [u32],
    w: &mut Scratch,
    f: &mut Numbers,
    count: u64,
) -> Result<u64, BlockError>
    requires source { Source a.now.dims.now a.now.starts.now a.now.rows.now a.now.values.now a.now.bodies.now a.now.order.now t.now.sizes.now }
    requires rows_laid { RowsLaid (laid t.now) (length a.now.dims.now) (length f.old.l_values.now) (length w.old.room.c.now) }
    requires diagonal_laid { DiagonalLaid t.now.sizes.now t.now.unit_starts.now t.now.d_starts.now (length a.now.dims.now) (length f.old.diag.now) (length f.old.d.now) }
    requires grown { Grown (laid t.now) t.now.into.now t.now.upper.now t.now.tree.now × (length t.now.tree.now ≡ length a.now.dims.now) }
    requires ready { Ready (laid t.now) (length a.now.dims.now) j places.old w.old }
    requires in_bounds { (j < length a.now.dims.now) × (length w.old.room.c.now < 4294967296) × (count ≤ 16777216 * j) }
    ensures ready_next { Ready (laid t.now) (length a.now.dims.now) (j + 1) places.new w.new }
    ensures counted { Counted j result }
    ensures turns { Turns (laid t.now) t.now.unit_starts.now t.now.d_starts.now t.now.into.now t.now.upper.now (given_of a.now tol) j f.old.l_values.now f.old.diag.now f.old.d.now f.old.cache.now count result f.new.l_values.now f.new.diag.now f.new.d.now f.new.cache.now }
    ensures scratch { SameScratch w.old w.new }
    ensures numbers { SameNumbers f.old f.new }
{
    load_column(a, t, j, places, w.room.c);
    let l_values = &mut *f.l_values;
    let diag = &mut *f.diag;
    let d = &mut *f.d;
    let cache = &mut *f.cache;
    let before = Inputs {
        places: &places[..],
        l_values: &l_values[..],
        diag: &diag[..],
        d: &d[..],
        cache: &cache[..],
    };
    let n = work_column(t, &before, j, w, count);
    let r = finish_column(t, &places[..], j, tol, &w.room.c[..], f);
    let l_values = &mut *f.l_values;
    let diag = &mut *f.diag;
    let cache = &mut *f.cache;
    keep_column(t, j, &l_values[..], &diag[..], cache);
    turned_by(n, r)
}

// The end of a column, with the count so far.
fn turned_by(count: u64, r: Result<LdltResult, BlockError>) -> Result<u64, BlockError>
    ensures { result ≡ turned_of count r }
{
    r?;
    Ok(count)
}
