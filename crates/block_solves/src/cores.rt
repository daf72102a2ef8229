// The blocks of the solve, where the tables are known to be good. y holds the vector by new number, block k from starts[k] on.
// Kept: that j is one of the blocks, as a fact: j is counted by the loop, and stands beside the list.
ghost use Rattle.std.specs.Prelude.{◌≡◌, ◌+◌, ◌*◌, ◌<◌, ◌≤◌, length};
ghost use Rattle.tables.specs.Verdict.{at};
ghost use Rattle.scalars.specs.Scalars.{scalar_starts};
ghost use Rattle.layout.specs.Layout.{unit_starts_of, DiagonalLaid};
ghost use Rattle.solution.specs.Flat.{BlocksLaid};
ghost use Rattle.block_solves.specs.Blocks.{Solves, SolvesBlock};

use dense_solve::cores::ldlt_solve_core;

// All blocks. The unit factors stand in diag one behind the other, and d begins where the block does.
pub fn solve_blocks(sizes: &[u32], starts: &[u32], diag: &[f64], d: &[f64], y: &mut [f64])
    requires { (starts.now ≡ scalar_starts sizes.now) × DiagonalLaid sizes.now (unit_starts_of sizes.now) starts.now (length sizes.now) (length diag.now) (length d.now) × BlocksLaid sizes.now starts.now (length y.old) }
    ensures { Solves sizes.now starts.now diag.now d.now (length sizes.now) y.old y.new }
{
    let mut unit: usize = 0;
    // Kept: j goes to `solve_block`, which reads two lists by it, and says of them what it says of block j.
    for j in 0..sizes.len() {
        unit = solve_block(sizes, starts, j, unit, diag, d, y);
    }
}

// Block j, whose unit factor begins at `unit`. Returns where the next one does.
fn solve_block(
    sizes: &[u32],
    starts: &[u32],
    j: usize,
    unit: usize,
    diag: &[f64],
    d: &[f64],
    y: &mut [f64],
) -> usize
    requires starts_value { (starts.now ≡ scalar_starts sizes.now) × DiagonalLaid sizes.now (unit_starts_of sizes.now) starts.now (length sizes.now) (length diag.now) (length d.now) × BlocksLaid sizes.now starts.now (length y.old) }
    requires j_in_bounds { (j < length sizes.now) × (unit ≡ at (unit_starts_of sizes.now) j) }
    requires fits { (at starts.now j + at sizes.now j ≤ length y.old) × (at starts.now j + at sizes.now j ≤ length d.now) × (unit + at sizes.now j * at sizes.now j ≤ length diag.now) }
    ensures value { result ≡ at (unit_starts_of sizes.now) (j + 1) }
    ensures solves_block { SolvesBlock sizes.now starts.now diag.now d.now j y.old y.new }
{
    let w = sizes[j] as usize;
    let s = starts[j] as usize;
    let s_end = s + w;
    let unit_end = unit + w * w;
    ldlt_solve_core(w, &diag[unit..unit_end], &d[s..s_end], &mut y[s..s_end]);
    unit_end
}
