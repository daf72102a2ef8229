// The solve with a block factor, where the tables are known to be good and each list has exactly its need.
// Kept: what each call asks of a factor is one record, `FactorFits`. The bounds on the dimensions and on the order stand by themselves: other calls ask
// for only one of them, or with another list beside them.
ghost use Rattle.std.specs.Prelude.{◌≡◌, ◌+◌, ◌≤◌, length, replicate};
ghost use Rattle.scalar.specs.Block.{zeros};
ghost use Rattle.graph.specs.Order.{Permutes};
ghost use Rattle.tables.specs.Sound.{Sizes};
ghost use Rattle.order.specs.Order.{sizes_of};
ghost use Rattle.scalars.specs.Scalars.{scalar_starts, scalar_count, scalar_perm};
ghost use Rattle.layout.specs.Layout.{unit_starts_of, DiagonalLaid};
ghost use Rattle.sweep.specs.Sweep.{Laid, rows_of};
ghost use Rattle.solve_core.specs.Core.{FactorFits, SolveRoom, SolvedWith, Cleared, Substitutes};

use backward::cores::backward;
use block_solves::cores::solve_blocks;
use forward::cores::forward;
use lists::Factor;
use right_side::cores::{permute, unpermute};
use sweep::Rows;

// Kept: the five buffers one by one: each goes to steps of its own here, and `solve::Lent`, which holds them above, would be taken apart at once.
// x, the right side in old order, becomes the solution. The factor's order, tables and numbers are as `factorize` leaves them; its
// parents are not read. The rest is scratch, and ends as zeros:
//     y        the vector by new number: a number for each scalar
//     perm     the old number of each new scalar
//     sizes    the dimension of each new block: n
//     starts   where the scalars of each block begin, of the old ones and then of the new ones: n + 1
pub fn solve_core(
    dims: &[u32],
    f: &Factor,
    x: &mut [f64],
    y: &mut [f64],
    perm: &mut [u32],
    sizes: &mut [u32],
    starts: &mut [u32],
)
    requires solvable { FactorFits dims.now f.now }
    requires solve_room { SolveRoom dims.now (length x.old) (length y.old) (length perm.old) (length sizes.old) (length starts.old) }
    ensures solved_by { SolvedWith dims.now f.now x.old x.new }
    ensures y_after { (y.new ≡ zeros (length y.old)) × (perm.new ≡ replicate (length perm.old) 0) × (sizes.new ≡ replicate (length sizes.old) 0) × (starts.new ≡ replicate (length starts.old) 0) }
{
    solve_tables(dims, f.order, perm, sizes, starts);
    permute(&perm[..], &x[..], y);
    let r = Rows {
        sizes: &sizes[..],
        starts: &starts[..],
        l_starts: f.l_starts,
        l_rows: f.l_rows,
        l_offsets: f.l_offsets,
        l_values: f.l_values,
    };
    substitute(&r, f.diag, f.d, y);
    unpermute(&perm[..], &y[..], x);
    scalar::clear(y);
    perm.fill(0);
    sizes.fill(0);
    starts.fill(0);
}

// The same where scratch may be longer than its need: the work is done in the first places of each, and those beyond are as they were.
pub fn solve_lent(
    dims: &[u32],
    f: &Factor,
    x: &mut [f64],
    y: &mut [f64],
    perm: &mut [u32],
    sizes: &mut [u32],
    starts: &mut [u32],
)
    requires solvable { FactorFits dims.now f.now }
    requires x_len { (length x.old ≡ scalar_count dims.now) × (scalar_count dims.now ≤ length y.old) × (scalar_count dims.now ≤ length perm.old) × (length dims.now ≤ length sizes.old) × (length dims.now + 1 ≤ length starts.old) }
    ensures solved_by { SolvedWith dims.now f.now x.old x.new }
    ensures cleared { Cleared dims.now y.old perm.old sizes.old starts.old y.new perm.new sizes.new starts.new }
{
    let m = x.len();
    let n = dims.len();
    let n1 = n + 1;
    solve_core(
        dims,
        f,
        x,
        &mut y[..m],
        &mut perm[..m],
        &mut sizes[..n],
        &mut starts[..n1],
    );
}

// The scalar permutation, and the dimensions and starts by new number. `starts` holds those of the old blocks on the way.
fn solve_tables(
    dims: &[u32],
    order: &[u32],
    perm: &mut [u32],
    sizes: &mut [u32],
    starts: &mut [u32],
)
    requires dims_len_bound { (length dims.now ≤ 4096) × Sizes dims.now × Permutes (length dims.now) order.now }
    requires perm_len { (length perm.old ≡ scalar_count dims.now) × (length sizes.old ≡ length dims.now) × (length starts.old ≡ length dims.now + 1) }
    ensures { (perm.new ≡ scalar_perm dims.now order.now) × (sizes.new ≡ sizes_of dims.now order.now) × (starts.new ≡ scalar_starts (sizes_of dims.now order.now)) }
{
    scalars::cores::make_flat_subdivision(dims, starts);
    scalars::cores::make_scalar_perm(dims, order, &starts[..], perm);
    buckets::cores::copy(order, sizes);
    order::cores::sizes(dims, sizes);
    scalars::cores::make_flat_subdivision(&sizes[..], starts);
}

// The three parts of the solve, on a vector by new number.
fn substitute(r: &Rows, diag: &[f64], d: &[f64], y: &mut [f64])
    requires laid { Laid r.now (length y.old) }
    requires starts_value { (r.now.starts.now ≡ scalar_starts r.now.sizes.now) × DiagonalLaid r.now.sizes.now (unit_starts_of r.now.sizes.now) r.now.starts.now (length r.now.sizes.now) (length diag.now) (length d.now) }
    ensures { Substitutes (rows_of r.now) r.now.starts.now r.now.l_values.now diag.now d.now y.old y.new }
{
    forward(r, y);
    solve_blocks(r.sizes, r.starts, diag, d, y);
    backward(r, y);
}
