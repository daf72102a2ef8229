// The tables of a factorization where A's tables, the order and L's rows are known to be good, and the needs of its lists.
// Kept: that dimensions are sizes and few, as facts: a factor's sizes by new number and A's by old are two lists, and each of these calls is handed one of them alone. What `lay_rows` asks is one
// record, `Layable`.
ghost use Rattle.std.specs.Prelude.{◌≡◌, ℕ, ◌+◌, ◌≤◌, length};
ghost use Rattle.tables.specs.Sound.{Sizes};
ghost use Rattle.order.specs.Order.{sizes_of};
ghost use Rattle.scalars.specs.Scalars.{scalar_starts, scalar_count};
ghost use Rattle.scalars.specs.Bodies.{offsets};
ghost use Rattle.layout.specs.Layout.{unit_starts_of, units_need, work_need};
ghost use Rattle.factor_tables.specs.Given.{Layable};

use lists::Night;
use scalars::cores::scalar_count;

// ---- the tables

// Those of the rows: the dimensions by new number, where each body of L begins, and each body of A.
pub fn lay_rows(
    a: &Night,
    order: &[u32],
    l_starts: &[u32],
    l_rows: &[u32],
    sizes: &mut [u32],
    l_offsets: &mut [u32],
    bodies: &mut [u32],
)
    requires layable { Layable a.now.dims.now a.now.starts.now a.now.rows.now order.now l_starts.now l_rows.now }
    requires sizes_len { length sizes.old ≡ length a.now.dims.now }
    requires l_offsets_len { (length l_offsets.old ≡ length l_rows.now + 1) × (length bodies.old ≡ length a.now.rows.now + 1) }
    ensures sizes_after { sizes.new ≡ sizes_of a.now.dims.now order.now }
    ensures l_offsets_after { l_offsets.new ≡ offsets (sizes_of a.now.dims.now order.now) l_starts.now l_rows.now }
    ensures bodies_after { bodies.new ≡ offsets a.now.dims.now a.now.starts.now a.now.rows.now }
{
    buckets::cores::copy(order, sizes);
    order::cores::sizes(a.dims, sizes);
    scalars::cores::make_offsets(sizes, l_starts, l_rows, l_offsets);
    scalars::cores::make_offsets(a.dims, a.starts, a.rows, bodies);
}

// Those of the diagonal: where each unit factor begins, and each d. `squares` is scratch.
pub fn lay_diagonal(
    sizes: &[u32],
    unit_starts: &mut [u32],
    d_starts: &mut [u32],
    squares: &mut [u32],
)
    requires sizes { Sizes sizes.now × (length sizes.now ≤ 4096) × (length squares.old ≡ length sizes.now) }
    requires unit_starts_len { (length unit_starts.old ≡ length sizes.now + 1) × (length d_starts.old ≡ length sizes.now + 1) }
    ensures unit_starts_after { unit_starts.new ≡ unit_starts_of sizes.now }
    ensures d_starts_after { d_starts.new ≡ scalar_starts sizes.now }
{
    layout::cores::square(sizes, squares);
    buckets::cores::sums(squares, unit_starts);
    scalars::cores::make_flat_subdivision(sizes, d_starts);
}

// ---- the needs, known before the plan: an order changes none of them (proofs/NeedLaws.antt)

// The numbers of all unit factors.
pub fn unit_numbers(dims: &[u32]) -> usize
    requires { Sizes dims.now × (length dims.now ≤ 4096) }
    ensures { result ≡ units_need dims.now }
{
    let mut sum = 0;
    for &dim in dims {
        let size = dim as usize;
        sum += size * size;
    }
    sum
}

// The numbers of the working column: the scalars times the greatest dimension.
pub fn work_numbers(dims: &[u32]) -> usize
    requires { Sizes dims.now × (length dims.now ≤ 4096) }
    ensures { result ≡ work_need dims.now }
{
    scalar_count(dims) * layout::cores::widest_of(dims) as usize
}
