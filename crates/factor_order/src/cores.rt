// What of a factor depends on the order of elimination, where the tables are known to be good. Nothing lent is written: the order is
// made anew in a local table of 16 KiB.
// Kept: that dimensions are sizes, that they are few, and that an order permutes them stand by themselves: `size_under`, `order_with` and the sums of
// `columns` ask for only one of the three, so a record of all would ask them for more.
ghost use Rattle.std.specs.Prelude.{◌≡◌, ◌<◌, ◌≤◌, length};
ghost use Rattle.graph.specs.Order.{Permutes, moved};
ghost use Rattle.tables.specs.Verdict.{at, areas, past_diagonal};
ghost use Rattle.tables.specs.Sound.{Sizes, Columns};
ghost use Rattle.order.specs.Order.{sizes_of};
ghost use Rattle.scalars.specs.Bodies.{offsets};
ghost use Rattle.factor_order.specs.Same.{same_list};

use columns::cores::total_area;
use lists::{Factor, Night};
use order::cores::{move_late, sizes};

// The area of a factor's blocks, by the dimensions under the order of elimination, which are made in a table of their number.
pub fn area_with(night: &Night, factor: &Factor, table: &mut [u32]) -> usize
    requires dims_len_bound { (length night.now.dims.now ≤ 4096) × Sizes night.now.dims.now × Permutes (length night.now.dims.now) night.now.perm.now × (length night.now.late.now ≡ length night.now.dims.now) }
    requires columns { Columns past_diagonal (length night.now.dims.now) factor.now.l_starts.now factor.now.l_rows.now × (length table.old ≡ length night.now.dims.now) }
    ensures { result ≡ areas (sizes_of night.now.dims.now (moved night.now.perm.now night.now.late.now)) factor.now.l_starts.now factor.now.l_rows.now }
{
    move_late(night.perm, night.late, table);
    sizes(night.dims, table);
    total_area(table, factor.l_starts, factor.l_rows)
}

// The area of a factor's blocks under the order of elimination.
// Kept: the table is made as in `order_is`. It is a local array, which no function could hand out, and a closure for the one call behind it is longer than the two lines.
pub fn area_under(night: &Night, factor: &Factor) -> usize
    requires dims_len_bound { (length night.now.dims.now ≤ 4096) × Sizes night.now.dims.now × Permutes (length night.now.dims.now) night.now.perm.now × (length night.now.late.now ≡ length night.now.dims.now) }
    requires columns { Columns past_diagonal (length night.now.dims.now) factor.now.l_starts.now factor.now.l_rows.now }
    ensures { result ≡ areas (sizes_of night.now.dims.now (moved night.now.perm.now night.now.late.now)) factor.now.l_starts.now factor.now.l_rows.now }
{
    let mut table = [0u32; 4096];
    let n = night.dims.len();
    area_with(night, factor, &mut table[..n])
}

// ---- the order

// Is `order` the permutation after the late move? That is made in a table of its length.
pub fn order_with(night: &Night, order: &[u32], table: &mut [u32]) -> bool
    requires { Permutes (length night.now.perm.now) night.now.perm.now × (length night.now.late.now ≡ length night.now.perm.now) × (length table.old ≡ length night.now.perm.now) }
    ensures { result ≡ same_list order.now (moved night.now.perm.now night.now.late.now) }
{
    move_late(night.perm, night.late, table);
    order == &table[..]
}

// Is `order` the permutation after the late move?
// Kept: the table is made as in `area_under`, which says why.
pub fn order_is(night: &Night, order: &[u32]) -> bool
    requires { Permutes (length night.now.perm.now) night.now.perm.now × (length night.now.late.now ≡ length night.now.perm.now) × (length night.now.perm.now ≤ 4096) }
    ensures { result ≡ same_list order.now (moved night.now.perm.now night.now.late.now) }
{
    let mut table = [0u32; 4096];
    let n = night.perm.len();
    order_with(night, order, &mut table[..n])
}

// ---- the offsets

// The dimension of the new block k.
pub fn size_under(dims: &[u32], order: &[u32], k: usize) -> usize
    requires { Permutes (length dims.now) order.now × (k < length dims.now) }
    ensures { result ≡ at (sizes_of dims.now order.now) k }
{
    let old = order[k] as usize;
    dims[old] as usize
}

// Are l_offsets where each body of the factor begins, and behind the last the number of its values?
pub fn offsets_are(dims: &[u32], factor: &Factor) -> bool
    requires { (length dims.now ≤ 4096) × Sizes dims.now × Permutes (length dims.now) factor.now.order.now × Columns past_diagonal (length dims.now) factor.now.l_starts.now factor.now.l_rows.now }
    ensures { result ≡ same_list factor.now.l_offsets.now (offsets (sizes_of dims.now factor.now.order.now) factor.now.l_starts.now factor.now.l_rows.now) }
{
    let l_starts = factor.l_starts;
    let l_rows = factor.l_rows;
    let l_offsets = factor.l_offsets;
    if l_offsets.len() != l_rows.len() + 1 {
        return false;
    }
    let mut sum = 0;
    // Kept: j is a column's number, by which its starts and its dimension are read, and p a place of two lists: with `zip` both would be cut first.
    for j in 0..dims.len() {
        let width = size_under(dims, factor.order, j);
        for p in l_starts[j] as usize..l_starts[j + 1] as usize {
            if l_offsets[p] as usize != sum {
                return false;
            }
            sum += size_under(dims, factor.order, l_rows[p] as usize) * width;
        }
    }
    l_offsets[l_rows.len()] as usize == sum
}
