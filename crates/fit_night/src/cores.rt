// A night whose tables have passed, within the rooms of `fit`: factored, solved and marked.
// Kept: that a night has passed its checks, and that the rooms hold it, is one named record, `Within` of `fit_factor`, of the struct that is handed on.
ghost use Rattle.std.specs.Prelude.{◌≡◌, ◌+◌, length, take};
ghost use Rattle.scalars.specs.Scalars.{scalar_count};
ghost use Rattle.layout.specs.Layout.{units_need};
ghost use Rattle.marks.specs.Mark.{silent_of, marks_of};
ghost use Rattle.solve_core.specs.Core.{Solvable, SolvedBy};
ghost use Rattle.factor_setup.specs.Exact.{handed};
ghost use Rattle.fit_factor.specs.Fitted.{Within};
ghost use Rattle.fit_night.specs.Night.{Room, Solves};

use analysis::cores::Counts;
use factor_setup::System;
use fit_factor::cores::{Arrays, FitError, factor_core};
use fit_solve::cores::solve_room;
use lists::Factor;
use marks::cores::mark_core;

// What an accepted night hands back: L's blocks below the diagonal, the block products worked through, and the silent scalars.
#[derive(Clone, Copy)]
pub struct Tally {
    pub stored: usize,
    pub products: u64,
    pub silent: usize,
}

// x, the right side in old order, becomes the solution, and `marks` the mark of each scalar. Both are as they were where the night is
// refused.
pub fn night_core(s: &System, x: &mut [f64], marks: &mut [u8]) -> Result<Tally, FitError>
    requires within { Within (handed s.now) }
    requires x_len { (length x.old ≡ scalar_count s.now.dims.now) × (length marks.old ≡ scalar_count s.now.dims.now) }
    ensures { Solves (handed s.now) x.old marks.old result x.new marks.new }
{
    let mut order = [0u32; 128];
    let mut parents = [0u32; 128];
    let mut l_starts = [0u32; 129];
    let mut l_rows = [0u32; 8128];
    let mut l_offsets = [0u32; 8129];
    let mut l_values = [0.0; 8192];
    let mut diag = [0.0; 8192];
    let mut d = [0.0; 512];
    let mut o = Arrays {
        order: &mut order,
        parents: &mut parents,
        l_starts: &mut l_starts,
        l_rows: &mut l_rows,
        l_offsets: &mut l_offsets,
        l_values: &mut l_values,
        diag: &mut diag,
        d: &mut d,
    };
    let counts = factor_core(s, &mut o)?;
    let stored = counts.stored;
    let products = counts.products;
    let f = Factor {
        order: &order,
        parents: &parents,
        l_starts: &l_starts,
        l_rows: &l_rows,
        l_offsets: &l_offsets,
        l_values: &l_values,
        diag: &diag,
        d: &d,
    };
    let silent = solve_parts(s.dims, s.tol, counts, &f, x, marks);
    Ok(Tally {
        stored,
        products,
        silent,
    })
}

// The solve and the marks with a factor in the first places of longer lists; its parents are not read. Returns how many scalars are silent.
pub fn solve_parts(
    dims: &[u32],
    tol: f64,
    counts: Counts,
    f: &Factor,
    x: &mut [f64],
    marks: &mut [u8],
) -> usize
    requires solvable { Solvable dims.now (take (length dims.now) f.now.order.now) (take (length dims.now + 1) f.now.l_starts.now) (take counts.stored f.now.l_rows.now) (take (counts.stored + 1) f.now.l_offsets.now) counts.numbers (units_need dims.now) (scalar_count dims.now) }
    requires room { Room dims.now counts.stored counts.numbers (length f.now.order.now) (length f.now.l_starts.now) (length f.now.l_rows.now) (length f.now.l_offsets.now) (length f.now.l_values.now) (length f.now.diag.now) (length f.now.d.now) (length x.old) (length marks.old) }
    ensures solved_by { SolvedBy dims.now (take (length dims.now) f.now.order.now) (take (length dims.now + 1) f.now.l_starts.now) (take counts.stored f.now.l_rows.now) (take (counts.stored + 1) f.now.l_offsets.now) (take counts.numbers f.now.l_values.now) (take (units_need dims.now) f.now.diag.now) (take (scalar_count dims.now) f.now.d.now) x.old x.new }
    ensures value { (result ≡ silent_of tol (take (scalar_count dims.now) f.now.d.now)) × (marks.new ≡ marks_of dims.now (take (length dims.now) f.now.order.now) tol (take (scalar_count dims.now) f.now.d.now)) }
{
    let mut old_starts = [0u32; 129];
    let n = dims.len();
    let n1 = n + 1;
    let stored = counts.stored;
    let stored1 = stored + 1;
    let numbers = counts.numbers;
    let scalars = x.len();
    let units = factor_tables::cores::unit_numbers(dims);
    let first = Factor {
        order: &f.order[..n],
        parents: f.parents,
        l_starts: &f.l_starts[..n1],
        l_rows: &f.l_rows[..stored],
        l_offsets: &f.l_offsets[..stored1],
        l_values: &f.l_values[..numbers],
        diag: &f.diag[..units],
        d: &f.d[..scalars],
    };
    solve_room(dims, &first, x);
    mark_core(dims, first.order, first.d, tol, &mut old_starts, marks)
}
