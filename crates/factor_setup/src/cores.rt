// The tables of a factor, where each list but L's rows and offsets has exactly its need and the night's tables have passed.
ghost use Rattle.std.specs.Prelude.{◌≡◌, ◌+◌, take};
ghost use Rattle.elimination_tree.specs.Tree.{parents_of};
ghost use Rattle.tables.specs.Sound.{PlanSound};
ghost use Rattle.machine.specs.System.{blocks, links};
ghost use Rattle.factor_setup.specs.Exact.{handed, stored, Tabled};
ghost use Rattle.factor_setup.specs.Lent.{SameOutputs, SameWork, Found, TableRoom, SameBeyond};

use crate::{Outputs, System, UpperTree, Work};
use analysis::cores::{Analysis, store};
use factor_tables::cores::{lay_diagonal, lay_rows};

// L's tables, the order of elimination, the tree and the offsets, from what the analysis left: the tree with the upper pattern, and the counts in
// `count`, which become the next places. `inverse` and `places` are scratch; the numbers and the room of a column stay.
// Kept: of the plan's scratch the lists that are written, one by one. With all of it lent, the tree and the pattern could be no lists but its own, and no type would say
// that they stay; and Rattle covers no struct that is built from some of its fields.
pub fn write_tables(
    s: &System,
    found: &Analysis,
    t: &UpperTree,
    o: &mut Outputs,
    inverse: &mut [u32],
    sizes: &mut [u32],
    count: &mut [u32],
    stamps: &mut [u32],
    w: &mut Work,
)
    requires plan_sound { PlanSound s.now.dims.now s.now.starts.now s.now.rows.now s.now.perm.now s.now.late.now }
    requires analyzed { Found (handed s.now) t.now count.old found.now }
    requires room { TableRoom (handed s.now) o.old inverse.old sizes.old stamps.old w.old }
    ensures tabled { Tabled (handed s.now) o.new.order.now o.new.l_starts.now (take (stored (handed s.now)) o.new.l_rows.now) (take (stored (handed s.now) + 1) o.new.l_offsets.now) sizes.new w.new.bodies.now w.new.unit_starts.now w.new.d_starts.now count.new stamps.new }
    ensures parents_after { o.new.parents.now ≡ parents_of (links (handed s.now)) (blocks (handed s.now)) }
    ensures beyond { SameBeyond (handed s.now) o.old o.new }
    ensures numbers { (o.new.l_values.now ≡ o.old.l_values.now) × (o.new.diag.now ≡ o.old.diag.now) × (o.new.d.now ≡ o.old.d.now) × (w.new.column.now ≡ w.old.column.now) }
    ensures outputs { SameOutputs o.old o.new }
    ensures work { SameWork w.old w.new }
{
    let n = s.dims.len();
    let stored = found.counts.stored;
    let night = s.night();
    let order = &mut *o.order;
    let parents = &mut *o.parents;
    let l_starts = &mut *o.l_starts;
    let l_rows = &mut *o.l_rows;
    let l_offsets = &mut *o.l_offsets;
    let bodies = &mut *w.bodies;
    let unit_starts = &mut *w.unit_starts;
    let d_starts = &mut *w.d_starts;
    let places = &mut *w.places;
    let (l_rows, _) = l_rows.split_at_mut(stored);
    let (l_offsets, _) = l_offsets.split_at_mut(stored + 1);
    store(t, found.entries, stamps, inverse, count, l_starts, l_rows);
    order::cores::move_late(s.perm, s.late, order);
    buckets::cores::copy(t.parent, parents);
    lay_rows(&night, order, l_starts, l_rows, sizes, l_offsets, bodies);
    buckets::cores::copy(l_starts, count);
    lay_diagonal(sizes, unit_starts, d_starts, places);
    stamps.fill(0);
}
