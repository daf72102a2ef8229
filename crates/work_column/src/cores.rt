// The products of one column, where the plan's tables are known to be good.
// Kept: `Grown`, which the calls above ask too: it is one named record.
ghost use Rattle.std.specs.Prelude.{◌≡◌, ◌+◌, ◌*◌, ◌<◌, ◌≤◌, length};
ghost use Rattle.layout.specs.Layout.{laid, RowsLaid, DiagonalLaid, Placed};
ghost use Rattle.work_column.specs.Work.{Ready, Grown, Works, SameScratch};

use column_products::cores::{Inputs, Working};
use lists::Tables;
use reach_products::cores::apply_reach;
use symbolic::cores::walk;

// What the columns are worked out in.
#[derive(Drop)]
pub struct Scratch<'a> {
    // The walk's, for the columns that reach the one being worked.
    pub stamps: &'a mut [u32],
    pub out: &'a mut [u32],
    // The place of each column in the row table from which on its rows are still to be worked.
    pub next: &'a mut [u32],
    pub room: Working<'a>,
}

// Column j, loaded in its room, loses its products; the count comes back with one more for each. next[k] goes one further for each column k that
// has row j.
// Kept: the count is handed on to `apply_reach`.
pub fn work_column(t: &Tables, f: &Inputs, j: usize, w: &mut Scratch, count: u64) -> u64
    requires rows_laid { RowsLaid (laid t.now) (length t.now.tree.now) (length f.now.l_values.now) (length w.old.room.c.now) }
    requires diagonal_laid { DiagonalLaid t.now.sizes.now t.now.unit_starts.now t.now.d_starts.now (length t.now.tree.now) (length f.now.diag.now) (length f.now.d.now) }
    requires placed { Placed (laid t.now) f.now.places.now j × (j < length t.now.tree.now) }
    requires grown { Grown (laid t.now) t.now.into.now t.now.upper.now t.now.tree.now }
    requires ready { Ready (laid t.now) (length t.now.tree.now) j f.now.places.now w.old }
    requires counted { count ≤ 16777216 * j }
    ensures ready_next { Ready (laid t.now) (length t.now.tree.now) (j + 1) f.now.places.now w.new }
    ensures count_after { result ≤ 16777216 * (j + 1) }
    ensures works { Works (laid t.now) t.now.unit_starts.now t.now.d_starts.now t.now.into.now t.now.upper.now (length t.now.tree.now) j f.now.places.now f.now.l_values.now f.now.diag.now f.now.d.now f.now.cache.now w.old.room.c.now count w.new.room.c.now result }
    ensures same { SameScratch w.old w.new }
{
    let stamps = &mut *w.stamps;
    let out = &mut *w.out;
    let next = &mut *w.next;
    let top = walk(t.into, t.upper, t.tree, j as u32, stamps, out);
    let found = &*out;
    apply_reach(t, f, j, &found[top..], next, &mut w.room, count)
}
