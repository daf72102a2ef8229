// The elimination tree of a symmetric matrix from its upper pattern: Liu's algorithm with path compression (`EliminationTree::new`).
// Tables of u32; none is NONE. One loop to a function.
ghost use Rattle.std.specs.Prelude.{◌≡◌, ℕ, ◌+◌, ◌<◌, ◌≤◌, length, nat_lt};
ghost use Rattle.graph.specs.Sets.{filter};
ghost use Rattle.graph.specs.Liu.{Forest, walk, walks};
ghost use Rattle.elimination_tree.specs.Tree.{as_forest, Climbs, Pattern, Ascends, linked_up, parents_of};

use tables::cores::NONE;

// The inner loop of column j, from block `start` below it: along the ancestors, each of which becomes j, up to j or to a root, which gets j as parent.
fn climb(parent: &mut [u32], ancestor: &mut [u32], j: u32, start: u32)
    requires parent_len { (length parent.old ≡ length ancestor.old) × (j < length ancestor.old) × (j < 4096) × (start < j) }
    requires climbs { Climbs j ancestor.old }
    ensures ancestor_after { as_forest parent.new ancestor.new ≡ walk j j start (as_forest parent.old ancestor.old) }
    ensures climbs_2 { Climbs j ancestor.new }
{
    let mut i = start;
    // Kept: it climbs a tree and counts nothing.
    while i != j {
        let at = i as usize;
        let next = ancestor[at];
        ancestor[at] = j;
        if next == NONE {
            parent[at] = j;
            return;
        }
        i = next;
    }
}

// Column j: a climb from each of its rows that is below j.
fn column(parent: &mut [u32], ancestor: &mut [u32], rows: &[u32], j: u32)
    requires parent_len { (length parent.old ≡ length ancestor.old) × (j < length ancestor.old) × (j < 4096) }
    requires climbs { Climbs j ancestor.old }
    ensures ancestor_after { as_forest parent.new ancestor.new ≡ walks j (filter (λ i. nat_lt i j) rows.now) (as_forest parent.old ancestor.old) }
    ensures climbs_2 { Climbs j ancestor.new }
{
    for &i in rows {
        if i < j {
            climb(parent, ancestor, j, i);
        }
    }
}

// The tree: its parents, from an upper pattern of as many blocks as there are places for parents. `ancestor` is scratch.
pub fn new_core(starts: &[u32], rows: &[u32], parent: &mut [u32], ancestor: &mut [u32])
    requires pattern { Pattern (length parent.old) starts.now rows.now }
    requires ascends { Ascends (length parent.old) starts.now rows.now }
    requires ancestor_len { length ancestor.old ≡ length parent.old }
    ensures { parent.new ≡ parents_of (linked_up starts.now rows.now) (length parent.old) }
{
    parent.fill(NONE);
    ancestor.fill(NONE);
    let n = parent.len();
    for j in 0..n {
        let from = starts[j] as usize;
        let to = starts[j + 1] as usize;
        column(parent, ancestor, &rows[from..to], j as u32);
    }
}
