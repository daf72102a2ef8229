// The solve within the rooms of `fit`, 128 blocks and 512 scalars, where the factor is known to be good and each list has
// exactly its need.
// Kept: what the checks have found of a factor is one named record, `FactorFits`, which `solve_core` asks for too.
ghost use Rattle.std.specs.Prelude.{◌≡◌, ◌≤◌, length};
ghost use Rattle.scalars.specs.Scalars.{scalar_count};
ghost use Rattle.solve_core.specs.Core.{FactorFits, SolvedWith};

use lists::Factor;
use solve_core::cores::solve_core;

// x, the right side in old order, becomes the solution.
pub fn solve_room(dims: &[u32], f: &Factor, x: &mut [f64])
    requires solvable { FactorFits dims.now f.now }
    requires dims_len_bound { (length dims.now ≤ 128) × (length x.old ≡ scalar_count dims.now) × (length x.old ≤ 512) }
    ensures { SolvedWith dims.now f.now x.old x.new }
{
    let mut y = [0.0; 512];
    let mut perm = [0u32; 512];
    let mut sizes = [0u32; 128];
    let mut starts = [0u32; 129];
    let n = dims.len();
    let n1 = n + 1;
    let scalars = x.len();
    solve_core(
        dims,
        f,
        x,
        &mut y[..scalars],
        &mut perm[..scalars],
        &mut sizes[..n],
        &mut starts[..n1],
    );
}
