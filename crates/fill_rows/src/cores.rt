// The rows of L, column after column, from an upper pattern, Liu's table of parents and the places where L's columns begin. A column without its
// first row, which is its parent, is a part of the parent's column. So where it has one row more than that, it repeats the parent's column
// behind the parent: it is copied, and only the other columns take part in the climbs, in which each row j goes to the end of the
// columns that reach it. Many rows of L stand in columns that repeat others, and copied they cost next to nothing.
// Kept: what is known of the parents, and how long is what is lent, as facts: a climb takes the parents' table alone, or one that leads onward in its place (`fill_rows`), so it can take no
// `UpperTree`.
ghost use Rattle.std.specs.Prelude.{◌≡◌, ℕ, ◌+◌, ◌-◌, ◌<◌, ◌≤◌, ◌⊎◌, length, slice_index, slice_index_or};
ghost use Rattle.graph.specs.Sets.{between, gather};
ghost use Rattle.graph.specs.Symbolic as L;
ghost use Rattle.elimination_tree.specs.Tree.{linked_up};
ghost use Rattle.reach.specs.Reach.{Parents};
ghost use Rattle.buckets.specs.Buckets.{Laid};
ghost use Rattle.symbolic.specs.Columns.{Tree, columns_of};
ghost use Rattle.fill_rows.specs.Repeats.{Rising, repeats, top_of, Onward, Copied};

use symbolic::UpperTree;
use tables::cores::NONE;

// Whether column k repeats its parent's: whether it has one row more.
#[tactic(auto, using(symbolic::proofs::Climbs::goes_up))]
fn repeats_parent(parent: &[u32], l_starts: &[u32], k: usize) -> bool
    requires { Parents parent.now × Rising (length parent.now) l_starts.now × (k < length parent.now) }
    ensures { result ≡ repeats parent.now l_starts.now k }
{
    let up = parent[k];
    if up == NONE {
        return false;
    }
    let p = up as usize;
    let own = l_starts[k + 1] - l_starts[k];
    let above = l_starts[p + 1] - l_starts[p];
    own as usize == above as usize + 1
}

// The first column from k up that repeats none.
fn top(parent: &[u32], l_starts: &[u32], onward: &[u32], k: u32) -> u32
    requires { Parents parent.now × Rising (length parent.now) l_starts.now × (k < length parent.now) × (length onward.now ≡ length parent.now) }
    ensures { result ≡ top_of parent.now l_starts.now onward.now k }
{
    if repeats_parent(parent, l_starts, k as usize) {
        return onward[k as usize];
    }
    k
}

// Where a climb goes on from each column: at the top of its parent.
fn link(parent: &[u32], l_starts: &[u32], onward: &mut [u32])
    requires { Parents parent.now × Rising (length parent.now) l_starts.now × (length onward.old ≡ length parent.now) }
    ensures { Onward parent.now l_starts.now onward.new }
{
    for k in (0..parent.len()).rev() {
        let up = parent[k];
        if up == NONE {
            onward[k] = NONE;
        } else {
            onward[k] = top(parent, l_starts, onward, up);
        }
    }
}

// The entries from `from` to `end` go to the places from `to` on, all of which lie before them.
// Kept: by `copy_within` the exported calls would ask for memmove, of which the archives for C have no need.
fn copy_down(table: &mut [u32], from: usize, end: usize, to: usize)
    requires { (from ≤ end) × (end ≤ length table.old) × (to + (end - from) ≤ from) }
    ensures by_index { (t : ℕ) → t < end - from → slice_index table.new (to + t) ≡ slice_index table.old (from + t) }
    ensures by_index_2 { (x : ℕ) → (x < to) ⊎ (to + (end - from) ≤ x) → slice_index table.new x ≡ slice_index table.old x }
{
    for t in 0..end - from {
        table[to + t] = table[from + t];
    }
}

// The columns that repeat their parents', each from its parent's, from the last column down.
fn copy_columns(parent: &[u32], l_starts: &[u32], l_rows: &mut [u32])
    requires { Parents parent.now × Rising (length parent.now) l_starts.now × (slice_index_or l_starts.now (length parent.now) 0 ≡ length l_rows.old) }
    ensures { Copied parent.now l_starts.now l_rows.old l_rows.new }
{
    for k in (0..parent.len()).rev() {
        if repeats_parent(parent, l_starts, k) {
            let up = parent[k];
            let p = up as usize;
            let to = l_starts[k] as usize;
            l_rows[to] = up;
            let from = l_starts[p] as usize;
            let end = l_starts[p + 1] as usize;
            copy_down(l_rows, from, end, to + 1);
        }
    }
}

// The rows of L into exactly the places that `l_starts` gives. `stamp`, `onward` and `next` are scratch.
// Not joined into its caller: there its loops would keep their lists on the stack.
#[inline(never)]
pub fn fill(
    t: &UpperTree,
    l_starts: &[u32],
    stamp: &mut [u32],
    onward: &mut [u32],
    next: &mut [u32],
    l_rows: &mut [u32],
)
    requires tree { Tree (length t.now.parent.now) t.now.starts.now t.now.rows.now t.now.parent.now }
    requires stamp_len { (length stamp.old ≡ length t.now.parent.now) × (length onward.old ≡ length t.now.parent.now) × (length next.old ≡ length t.now.parent.now) }
    requires laid { Laid (columns_of t.now.starts.now t.now.rows.now (length t.now.parent.now)) l_starts.now (length l_rows.old) }
    ensures { l_rows.new ≡ gather (L.rows (linked_up t.now.starts.now t.now.rows.now) (length t.now.parent.now)) (between 0 (length t.now.parent.now)) }
{
    stamp.fill(0);
    buckets::cores::copy(l_starts, next);
    link(t.parent, l_starts, onward);
    let n = t.parent.len();
    for j in 0..n {
        let from = t.starts[j] as usize;
        let to = t.starts[j + 1] as usize;
        let mark = j as u32 + 1;
        let at = top(t.parent, l_starts, onward, j as u32) as usize;
        stamp[at] = mark;
        symbolic::cores::store_climbs(
            onward,
            &t.rows[from..to],
            j as u32,
            mark,
            stamp,
            next,
            l_rows,
        );
    }
    copy_columns(t.parent, l_starts, l_rows);
}
