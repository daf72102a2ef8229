// The loop over the columns, where the plan's tables are known to be good.
// Kept: `Source` and `Grown`, which `factor_column` asks too: each is one named record, and each goes to another call there.
ghost use Rattle.std.specs.Prelude.{◌≡◌, ◌<◌, ◌≤◌, length};
ghost use Rattle.layout.specs.Layout.{laid, RowsLaid, DiagonalLaid};
ghost use Rattle.load_column.specs.Load.{Source};
ghost use Rattle.finish_column.specs.Finish.{SameNumbers};
ghost use Rattle.work_column.specs.Work.{Ready, Grown, SameScratch};
ghost use Rattle.factor_column.specs.Turn.{given_of};
ghost use Rattle.factor_columns.specs.Columns.{told_error, refused_at, Runs};

use block_diag_ldlt::cores::BlockError;
use factor_column::cores::factor_column;
use lists::{Matrix, Numbers, Tables};
use refusal::Refusal;
use work_column::cores::Scratch;

// Why the columns are refused.
#[derive(Clone, Copy, Debug, PartialEq)]
pub enum ColumnError {
    // 13: the pivot of row `place` of a block, by new number, is NaN or infinite.
    NotFinite {
        block: usize,
        place: usize,
        pivot: f64,
    },
    // 14: a block, by new number, is indefinite with a condition below 1e-10.
    Poor {
        block: usize,
        condition: f64,
    },
}

impl Refusal for ColumnError {
    ghost told = { told_error };

    fn number(&self) -> u32 {
        match self {
            ColumnError::NotFinite {
                block: _,
                place: _,
                pivot: _,
            } => 13,
            ColumnError::Poor {
                block: _,
                condition: _,
            } => 14,
        }
    }
}

// All columns of the factor of A, ascending, up to the first that is refused: the products of all of them. `next` of the scratch begins with the
// first places of L's columns; `places` is scratch, as `factor_column` says.
pub fn factor_columns(
    a: &Matrix,
    t: &Tables,
    tol: f64,
    places: &mut [u32],
    w: &mut Scratch,
    f: &mut Numbers,
) -> Result<u64, ColumnError>
    requires source { Source a.now.dims.now a.now.starts.now a.now.rows.now a.now.values.now a.now.bodies.now a.now.order.now t.now.sizes.now }
    requires rows_laid { RowsLaid (laid t.now) (length a.now.dims.now) (length f.old.l_values.now) (length w.old.room.c.now) }
    requires diagonal_laid { DiagonalLaid t.now.sizes.now t.now.unit_starts.now t.now.d_starts.now (length a.now.dims.now) (length f.old.diag.now) (length f.old.d.now) }
    requires grown { Grown (laid t.now) t.now.into.now t.now.upper.now t.now.tree.now × (length t.now.tree.now ≡ length a.now.dims.now) }
    requires ready { Ready (laid t.now) (length a.now.dims.now) 0 places.old w.old }
    requires c_len { length w.old.room.c.now < 4294967296 }
    ensures runs { Runs (laid t.now) t.now.unit_starts.now t.now.d_starts.now t.now.into.now t.now.upper.now (given_of a.now tol) result f.new.l_values.now f.new.diag.now f.new.d.now f.new.cache.now }
    ensures scratch { SameScratch w.old w.new }
    ensures numbers { SameNumbers f.old f.new }
{
    let n = a.dims.len();
    let mut count: u64 = 0;
    for j in 0..n {
        let end = factor_column(a, t, j, tol, places, w, f, count);
        count = end.map_err(move |e| refused_at(j, e))?;
    }
    Ok(count)
}

// The refusal of block `block`.
fn refused_at(block: usize, e: BlockError) -> ColumnError
    ensures { result ≡ refused_at block e }
{
    match e {
        BlockError::NotFinite { place, pivot } => ColumnError::NotFinite {
            block,
            place,
            pivot,
        },
        BlockError::Poor { condition } => ColumnError::Poor { block, condition },
    }
}
