// The forward part of the solve, where the factor's tables are known to be good. y holds the vector by new number, block k from starts[k] on.
// Kept: that the factor's rows are laid out in a vector so long, as a fact: the vector is lent apart from the rows, so neither could hold it.
ghost use Rattle.std.specs.Prelude.{◌≡◌, length};
ghost use Rattle.sweep.specs.Sweep.{Laid, rows_of};
ghost use Rattle.forward.specs.Forward.{Forwards, forward_pass};

use sweep::Rows;
use sweep::cores::{Direction, sweep};
use tiled_vector::cores::sub_rows;

// Columns ascending. Block i loses L(i, j) y(j), for each row i of column j; no row of the column changes y(j).
struct Down;

impl Direction for Down {
    ghost pass = { forward_pass };

    fn column(n: usize, t: usize) -> usize {
        t
    }

    fn row(h: usize, w: usize, a: &[f64], x: &mut [f64], y: &mut [f64]) {
        sub_rows(h, w, a, y, x);
    }
}

// All columns.
pub fn forward(r: &Rows, y: &mut [f64])
    requires { Laid r.now (length y.old) }
    ensures { Forwards (rows_of r.now) r.now.starts.now r.now.l_values.now (length r.now.sizes.now) y.old y.new }
{
    sweep::<Down>(r, y);
}
