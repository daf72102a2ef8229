// From A's tables, the permutation and the late flags to the elimination tree and the rows of L. `analyze` finds the tree and what L
// has in all, and stores nothing of L; `store` then writes where each column begins, and the rows.
// Kept: that the night has passed, as one named record: `plan` says why it is in no struct.
ghost use Rattle.std.specs.Prelude.{◌≡◌, ◌+◌, ◌≤◌, length, take};
ghost use Rattle.graph.specs.Links.{linked_in};
ghost use Rattle.graph.specs.Order.{moved};
ghost use Rattle.tables.specs.Sound.{PlanSound};
ghost use Rattle.elimination_tree.specs.Tree.{Pattern, Ascends, linked_up};
ghost use Rattle.order.specs.Order.{sizes_of};
ghost use Rattle.pattern.specs.Moved.{UpperOf};
ghost use Rattle.symbolic.specs.Columns.{Sized, Tree, columns_of};
ghost use Rattle.buckets.specs.Buckets.{lengths};
ghost use Rattle.scratch.specs.Scratch.{SameScratch, Room};
ghost use Rattle.analysis.specs.Plan.{stored_of, starts_of, rows_of, Analyzed, Ready};

use lists::Night;
use scratch::Scratch;
use symbolic::UpperTree;

// What L has: blocks below the diagonal, numbers in them, and the block products that make it.
#[derive(Clone, Copy)]
pub struct Counts {
    pub stored: usize,
    pub numbers: usize,
    pub products: u64,
}

// What the analysis leaves: the entries of the upper pattern, and what L has.
#[derive(Clone, Copy)]
pub struct Analysis {
    pub entries: usize,
    pub counts: Counts,
}

// The upper pattern of the permuted matrix (`into`, and the first entries of `upper`), and the dimensions by new number (`sizes`).
fn permute(a: &Night, w: &mut Scratch) -> u32
    requires plan_sound { PlanSound a.now.dims.now a.now.starts.now a.now.rows.now a.now.perm.now a.now.late.now }
    requires room { Room (length a.now.dims.now) (length a.now.rows.now) w.old }
    ensures upper_of { UpperOf (length a.now.dims.now) (linked_in a.now.starts.now a.now.rows.now (moved a.now.perm.now a.now.late.now)) w.new.into.now (take result w.new.upper.now) × (result ≤ length a.now.rows.now) }
    ensures sizes_after { w.new.sizes.now ≡ sizes_of a.now.dims.now (moved a.now.perm.now a.now.late.now) }
    ensures same { SameScratch w.old w.new }
{
    let inverse = &mut *w.inverse;
    let sizes = &mut *w.sizes;
    let count = &mut *w.count;
    let heads = &mut *w.heads;
    let into = &mut *w.into;
    let table = &mut *w.table;
    let upper = &mut *w.upper;
    order::cores::move_late(a.perm, a.late, sizes);
    order::cores::invert(sizes, inverse);
    let entries = pattern::cores::upper(a, inverse, count, heads, table, into, upper);
    order::cores::sizes(a.dims, sizes);
    entries
}

// The tree of an upper pattern, how many rows each column of L has, and what L has in all. `stamps` is scratch.
fn count_l(
    starts: &[u32],
    rows: &[u32],
    sizes: &[u32],
    tree: &mut [u32],
    stamps: &mut [u32],
    count: &mut [u32],
) -> Counts
    requires pattern { Pattern (length tree.old) starts.now rows.now × Ascends (length tree.old) starts.now rows.now × Sized (length tree.old) sizes.now }
    requires stamps_len { (length stamps.old ≡ length tree.old) × (length count.old ≡ length tree.old) }
    ensures { Analyzed (length tree.old) (linked_up starts.now rows.now) sizes.now tree.new count.new result }
{
    elimination_tree::cores::new_core(starts, rows, tree, stamps);
    let grown = UpperTree {
        starts,
        rows,
        parent: &tree[..],
    };
    let numbers = symbolic::cores::counts(&grown, sizes, stamps, count);
    let (stored, products) = symbolic::cores::add_up(count);
    Counts {
        stored,
        numbers,
        products,
    }
}

// The tree (the first places of `heads`), the upper pattern (`into`, and the first entries of `upper`), how many rows each column of
// L has (`count`), and what L has in all. The other buffers are scratch.
pub fn analyze(a: &Night, w: &mut Scratch) -> Analysis
    requires plan_sound { PlanSound a.now.dims.now a.now.starts.now a.now.rows.now a.now.perm.now a.now.late.now }
    requires room { Room (length a.now.dims.now) (length a.now.rows.now) w.old }
    ensures ready { Ready a.now.dims.now a.now.starts.now a.now.rows.now a.now.perm.now a.now.late.now w.new.count.now w.new.heads.now w.new.into.now w.new.upper.now result }
    ensures same { SameScratch w.old w.new }
{
    let n = a.dims.len();
    let entries = permute(a, w) as usize;
    let sizes = &mut *w.sizes;
    let count = &mut *w.count;
    let heads = &mut *w.heads;
    let into = &mut *w.into;
    let stamps = &mut *w.stamps;
    let upper = &mut *w.upper;
    let (rows, _) = upper.split_at_mut(entries);
    let counts = count_l(into, rows, sizes, &mut heads[..n], stamps, count);
    Analysis { entries, counts }
}

// Where each column of L begins, and L's rows, column after column. The upper pattern is in the first `entries` rows. `stamps` and `out` are
// scratch, and so is `count` from here on.
// Kept: `entries`, how far the rows are used. Tried with rows that the callers cut, by `&upper[..found.entries]` and by `split_at_mut`: `planned_core` does not close then, since
// nothing is known afterwards of the scratch that the cut is a part of.
pub fn store(
    t: &UpperTree,
    entries: usize,
    stamps: &mut [u32],
    out: &mut [u32],
    count: &mut [u32],
    l_starts: &mut [u32],
    l_rows: &mut [u32],
)
    requires inside { entries ≤ length t.now.rows.now }
    requires tree { Tree (length t.now.parent.now) t.now.starts.now (take entries t.now.rows.now) t.now.parent.now × (count.old ≡ lengths (columns_of t.now.starts.now (take entries t.now.rows.now) (length t.now.parent.now))) }
    requires stamps_len { (length stamps.old ≡ length t.now.parent.now) × (length out.old ≡ length t.now.parent.now) × (length l_starts.old ≡ length t.now.parent.now + 1) }
    requires l_rows_len { length l_rows.old ≡ stored_of (linked_up t.now.starts.now (take entries t.now.rows.now)) (length t.now.parent.now) }
    ensures l_starts_after { l_starts.new ≡ starts_of (linked_up t.now.starts.now (take entries t.now.rows.now)) (length t.now.parent.now) }
    ensures l_rows_after { l_rows.new ≡ rows_of (linked_up t.now.starts.now (take entries t.now.rows.now)) (length t.now.parent.now) }
{
    let listed = UpperTree {
        starts: t.starts,
        rows: &t.rows[..entries],
        parent: t.parent,
    };
    buckets::cores::sums(count, l_starts);
    fill_rows::cores::fill(&listed, l_starts, stamps, out, count, l_rows);
}
