// The backward part of the solve, where the factor's tables are known to be good. y holds the vector by new number, block k from starts[k] on.
// Kept: that the factor's rows are laid out in a vector so long, as a fact: the vector is lent apart from the rows, so neither could hold it.
ghost use Rattle.std.specs.Prelude.{◌≡◌, length};
ghost use Rattle.sweep.specs.Sweep.{Laid, rows_of};
ghost use Rattle.backward.specs.Backward.{Backwards, backward_pass};

use sweep::Rows;
use sweep::cores::{Direction, sweep};
use tiled_vector::cores::sub_columns;

// Columns descending. Block j loses L(i, j)ᵀ y(i), for each row i of column j.
struct Up;

impl Direction for Up {
    ghost pass = { backward_pass };

    fn column(n: usize, t: usize) -> usize {
        n - 1 - t
    }

    fn row(h: usize, w: usize, a: &[f64], x: &mut [f64], y: &mut [f64]) {
        sub_columns(h, w, a, x, y);
    }
}

// All columns.
pub fn backward(r: &Rows, y: &mut [f64])
    requires { Laid r.now (length y.old) }
    ensures { Backwards (rows_of r.now) r.now.starts.now r.now.l_values.now (length r.now.sizes.now) y.old y.new }
{
    sweep::<Up>(r, y);
}
