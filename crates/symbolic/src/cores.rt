// The plan of L: how many rows each column has, where each begins, and the rows themselves, from an upper pattern and Liu's table of parents.
// For j ascending the columns that reach j are walked and j goes to the end of each: every column comes out ascending, with no sorting.
// Both passes do their work on a column where the climb comes upon it, so neither makes a list of what it found.
// Kept: what is known of the parents, and how long is what is lent, as facts: a climb takes the parents' table alone, or one that leads onward in its place (`fill_rows`), so it can take no
// `UpperTree`.
ghost use Rattle.std.specs.Prelude.{◌≡◌, ℕ, ◌+◌, ◌*◌, ◌<◌, ◌≤◌, T, ◌++◌, reverse, length, drop, slice_index};
ghost use Rattle.graph.specs.Sets.{elem, between, gather, sum};
ghost use Rattle.graph.specs.Count.{products_of};
ghost use Rattle.graph.specs.Symbolic as L;
ghost use Rattle.elimination_tree.specs.Tree.{linked_up};
ghost use Rattle.reach.specs.Reach.{Parents, reached};
ghost use Rattle.buckets.specs.Buckets.{bumps, stores, Roomy, lengths, Laid};
ghost use Rattle.symbolic.specs.Columns.{Tree, Below, Sized, found, columns_of, numbers_of};

use crate::UpperTree;
use tables::cores::NONE;

// The columns that reach column j, at the end of `out` from the returned place on. The mark is j + 1.
// Kept: the three lists apart: its caller has them in L's tables (`lists::Tables`), and would make an `UpperTree` of them for each column.
pub fn walk(
    starts: &[u32],
    rows: &[u32],
    parent: &[u32],
    j: u32,
    stamp: &mut [u32],
    out: &mut [u32],
) -> usize
    requires tree { Tree (length parent.now) starts.now rows.now parent.now × (j < length parent.now) }
    requires stamp_len { (length stamp.old ≡ length parent.now) × (length out.old ≡ length parent.now) × Below j stamp.old }
    ensures upper_bound { (result ≤ length parent.now) × (drop result out.new ≡ found starts.now rows.now (length parent.now) j) }
    ensures below { Below (j + 1) stamp.new }
{
    let at = j as usize;
    let from = starts[at] as usize;
    let to = starts[at + 1] as usize;
    stamp[at] = j + 1;
    reach::cores::scan(parent, &rows[from..to], j, j + 1, stamp, out)
}

// The scan of `reach::cores::scan`, but nothing is listed: each block is counted as it is found, and the sum of their dimensions is returned.
// Kept: the climb is that of `reach::cores::scan`. What is done with a block needs the room that the blocks found before it left (`Roomy`): a closure for it would ask that of
// lists which it is handed and hands back at each step, and that contract is longer than the loop.
fn count_climbs(
    parent: &[u32],
    rows: &[u32],
    sizes: &[u32],
    j: u32,
    mark: u32,
    stamp: &mut [u32],
    count: &mut [u32],
) -> usize
    requires parents { Parents parent.now × (j < length parent.now) × (length parent.now ≤ 4096) × Sized (length parent.now) sizes.now }
    requires stamp_len { (length stamp.old ≡ length parent.now) × (length count.old ≡ length parent.now) }
    requires roomy { Roomy (reached parent.now mark j rows.now stamp.old).found count.old 4294967295 }
    ensures value { (result ≡ sum (reverse (reached parent.now mark j rows.now stamp.old).found) (λ k. slice_index sizes.now k)) × (result ≤ 65536) }
    ensures count_after { count.new ≡ bumps (reverse (reached parent.now mark j rows.now stamp.old).found) count.old }
    ensures stamp_after { stamp.new ≡ (reached parent.now mark j rows.now stamp.old).stamps }
{
    let mut total: usize = 0;
    for &i in rows {
        if i < j {
            let mut at = i as usize;
            // Kept: it climbs a tree and counts nothing.
            while stamp[at] != mark {
                count[at] += 1;
                total += sizes[at] as usize;
                stamp[at] = mark;
                let up = parent[at];
                if up == NONE {
                    break;
                }
                at = up as usize;
            }
        }
    }
    total
}

// The counting pass: how many rows each column of L has, and how many numbers L has, which is returned. `sizes` has the blocks'
// dimensions. `stamp` is scratch.
// Not joined into its caller: there its loops would keep their lists on the stack.
#[inline(never)]
pub fn counts(t: &UpperTree, sizes: &[u32], stamp: &mut [u32], count: &mut [u32]) -> usize
    requires tree { Tree (length t.now.parent.now) t.now.starts.now t.now.rows.now t.now.parent.now × Sized (length t.now.parent.now) sizes.now }
    requires stamp_len { (length stamp.old ≡ length t.now.parent.now) × (length count.old ≡ length t.now.parent.now) }
    ensures value { result ≡ numbers_of (linked_up t.now.starts.now t.now.rows.now) (length t.now.parent.now) sizes.now }
    ensures count_after { count.new ≡ lengths (columns_of t.now.starts.now t.now.rows.now (length t.now.parent.now)) }
{
    stamp.fill(0);
    count.fill(0);
    let n = t.parent.len();
    let mut numbers: usize = 0;
    for j in 0..n {
        let from = t.starts[j] as usize;
        let to = t.starts[j + 1] as usize;
        let mark = j as u32 + 1;
        stamp[j] = mark;
        let added = count_climbs(
            t.parent,
            &t.rows[from..to],
            sizes,
            j as u32,
            mark,
            stamp,
            count,
        );
        numbers += sizes[j] as usize * added;
    }
    numbers
}

// The scan of `reach::cores::scan`, but nothing is listed: j goes to the end of the bucket of each block as it is found.
// Kept: the climb is that of `reach::cores::scan`. What is done with a block needs the room that the blocks found before it left (`Roomy`): a closure for it would ask that of
// lists which it is handed and hands back at each step, and that contract is longer than the loop.
pub fn store_climbs(
    parent: &[u32],
    rows: &[u32],
    j: u32,
    mark: u32,
    stamp: &mut [u32],
    next: &mut [u32],
    table: &mut [u32],
)
    requires parents { Parents parent.now × (j < length parent.now) × (length table.old < 4294967296) }
    requires stamp_len { (length stamp.old ≡ length parent.now) × (length next.old ≡ length parent.now) }
    requires roomy { Roomy (reached parent.now mark j rows.now stamp.old).found next.old (length table.old) }
    ensures next_after { next.new ≡ bumps (reverse (reached parent.now mark j rows.now stamp.old).found) next.old }
    ensures table_after { table.new ≡ stores j (reverse (reached parent.now mark j rows.now stamp.old).found) next.old table.old }
    ensures stamp_after { stamp.new ≡ (reached parent.now mark j rows.now stamp.old).stamps }
{
    for &i in rows {
        if i < j {
            let mut at = i as usize;
            // Kept: it climbs a tree and counts nothing.
            while stamp[at] != mark {
                let free = next[at];
                table[free as usize] = j;
                next[at] = free + 1;
                stamp[at] = mark;
                let up = parent[at];
                if up == NONE {
                    break;
                }
                at = up as usize;
            }
        }
    }
}

// The filling pass: the rows of L, column after column, into exactly the places that `l_starts` gives. `stamp` and `next` are scratch.
// Kept: the plan calls `fill_rows::cores::fill` in its place, which copies the columns that repeat others and costs less; this is the pass by the definition alone, with the same
// promise, which the docs name.
pub fn fill(
    t: &UpperTree,
    l_starts: &[u32],
    stamp: &mut [u32],
    next: &mut [u32],
    l_rows: &mut [u32],
)
    requires tree { Tree (length t.now.parent.now) t.now.starts.now t.now.rows.now t.now.parent.now }
    requires stamp_len { (length stamp.old ≡ length t.now.parent.now) × (length next.old ≡ length t.now.parent.now) }
    requires laid { Laid (columns_of t.now.starts.now t.now.rows.now (length t.now.parent.now)) l_starts.now (length l_rows.old) }
    ensures { l_rows.new ≡ gather (L.rows (linked_up t.now.starts.now t.now.rows.now) (length t.now.parent.now)) (between 0 (length t.now.parent.now)) }
{
    stamp.fill(0);
    buckets::cores::copy(l_starts, next);
    let n = t.parent.len();
    for j in 0..n {
        let from = t.starts[j] as usize;
        let to = t.starts[j + 1] as usize;
        let mark = j as u32 + 1;
        stamp[j] = mark;
        store_climbs(
            t.parent,
            &t.rows[from..to],
            j as u32,
            mark,
            stamp,
            next,
            l_rows,
        );
    }
}

// What a column of c rows costs: c(c + 1)/2 block products.
pub fn products_of(c: u32) -> u64
    requires { c ≤ 65536 }
    ensures { result ≡ products_of c }
{
    let c = c as u64;
    c * (c + 1) / 2
}

// How many blocks L has, and how many block products make it, from how many rows each column has.
pub fn add_up(count: &[u32]) -> (usize, u64)
    requires { (length count.now ≤ 4096) × ((k : ℕ) → k < length count.now → slice_index count.now k ≤ 65536) }
    ensures stored_value { result.0 ≡ sum (between 0 (length count.now)) (λ k. slice_index count.now k) }
    ensures products_value { result.1 ≡ sum (between 0 (length count.now)) (λ k. products_of (slice_index count.now k)) }
{
    let mut stored: usize = 0;
    let mut products: u64 = 0;
    for &c in count {
        stored += c as usize;
        products += products_of(c);
    }
    (stored, products)
}
