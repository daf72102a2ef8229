// Scalars and bodies under the order of elimination, where the tables are known to be good. A's values stay where they are: a
// body is copied, or transposed where it lands above the diagonal, when its column is loaded.
// Kept: what is asked of dimensions and of an order, as facts: each of these calls asks for others of them (sizes, few, an order of as many), and a struct of lists
// that have passed would ask each for all.
ghost use Rattle.std.specs.Prelude.{◌≡◌, ℕ, ◌+◌, ◌*◌, ◌<◌, ◌≤◌, Bool, length, slice_index};
ghost use Rattle.graph.specs.Order.{Permutes};
ghost use Rattle.tables.specs.Sound.{Sizes, Measured};
ghost use Rattle.scalars.specs.Scalars.{scalar_starts, scalar_count, scalar_perm};
ghost use Rattle.scalars.specs.Bodies.{offsets, transposed, landed};

use columns::cores::block_area;
use scalar::cores::entry;

// Where the scalars of each block begin, behind the last their number, which is returned.
pub fn make_flat_subdivision(sizes: &[u32], starts: &mut [u32]) -> u32
    requires sizes_len_bound { (length sizes.now ≤ 4096) × (length starts.old ≡ length sizes.now + 1) }
    requires by_index { (k : ℕ) → k < length sizes.now → slice_index sizes.now k ≤ 16 }
    ensures value { result ≡ scalar_count sizes.now }
    ensures starts_after { starts.new ≡ scalar_starts sizes.now }
{
    buckets::cores::sums(sizes, starts)
}

// How many scalars the blocks have.
pub fn scalar_count(dims: &[u32]) -> usize
    requires { Sizes dims.now × (length dims.now ≤ 4096) }
    ensures { result ≡ scalar_count dims.now }
{
    let mut sum: usize = 0;
    for &dim in dims {
        sum += dim as usize;
    }
    sum
}

// The old number of each new scalar. `old_starts` is where the scalars of each old block begin.
pub fn make_scalar_perm(dims: &[u32], order: &[u32], old_starts: &[u32], out: &mut [u32])
    requires permutes { Permutes (length dims.now) order.now × (length dims.now ≤ 4096) × Sizes dims.now }
    requires old_starts_value { (old_starts.now ≡ scalar_starts dims.now) × (length out.old ≡ scalar_count dims.now) }
    ensures { out.new ≡ scalar_perm dims.now order.now }
{
    // Kept: `place` goes on through two loops, which no one range counts.
    let mut place = 0;
    for &old in order {
        let start = old_starts[old as usize];
        for s in 0..dims[old as usize] {
            out[place] = start + s;
            place += 1;
        }
    }
}

// Where the body of each stored block begins in A's values, behind the last the number of values.
pub fn make_offsets(dims: &[u32], starts: &[u32], rows: &[u32], out: &mut [u32])
    requires { Measured dims.now starts.now rows.now × (length rows.now < 16777216) × (length out.old ≡ length rows.now + 1) }
    ensures { out.new ≡ offsets dims.now starts.now rows.now }
{
    let mut sum = 0;
    for (j, &d) in dims.iter().enumerate() {
        let end = starts[j + 1] as usize;
        for p in starts[j] as usize..end {
            out[p] = sum as u32;
            sum += block_area(dims, rows, d as usize, p);
        }
    }
    out[rows.len()] = sum as u32;
}

// The transpose of a body of height h and width w.
pub fn transpose(body: &[f64], h: usize, w: usize, out: &mut [f64])
    requires { (length body.now ≡ h * w) × (length out.old ≡ h * w) }
    ensures { out.new ≡ transposed h w body.now }
{
    // Kept: `place` goes on through two loops, which no one range counts, and a body may have no columns, of which there are no chunks.
    let mut place = 0;
    for r in 0..h {
        for c in 0..w {
            out[place] = entry(body, h, w, r, c);
            place += 1;
        }
    }
}

// A body of height h and width w under new numbers: transposed where it lands above the diagonal. This is the source's permuting of one body; a column that is loaded adds
// it to 0.0 on the way, which would be a step more here.
// Kept: whether it lands above is the definition's own `landed`, so it goes in as it is compared.
pub fn permute_body(body: &[f64], h: usize, w: usize, above: bool, out: &mut [f64])
    requires { (length body.now ≡ h * w) × (length out.old ≡ h * w) }
    ensures { out.new ≡ landed above h w body.now }
{
    if above {
        transpose(body, h, w, out);
    } else {
        out.copy_from_slice(body);
    }
}
