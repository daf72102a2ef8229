// The block products of column j, where the plan's tables are known to be good.
ghost use Rattle.std.specs.Prelude.{◌≡◌, ◌+◌, ◌^◌, ◌<◌, length};
ghost use Rattle.column_products.specs.Columns.{plan_of, SameWorking};
ghost use Rattle.reach_products.specs.Reach.{reach_triples, ReachFit, ReachProducts};

use column_products::cores::{Inputs, Part, Working, apply_column};
use lists::Tables;

// By each column k of `reach`, in its order. Row j of column k stands at place next[k] of the tables, which goes one further.
// Kept: the count is handed on to `apply_column`.
pub fn apply_reach(
    t: &Tables,
    f: &Inputs,
    j: usize,
    reach: &[u32],
    next: &mut [u32],
    w: &mut Working,
    count: u64,
) -> u64
    requires reach_fit { ReachFit (plan_of t.now f.now.places.now) t.now.l_starts.now j reach.now next.old (length f.now.l_values.now) (length f.now.diag.now) (length f.now.d.now) (length w.old.qj.now) (length w.old.qi.now) (length w.old.c.now) }
    requires reach_bound { count + length (reach_triples (plan_of t.now f.now.places.now) t.now.l_starts.now next.old j reach.now) < 2 ^ 64 }
    ensures products { ReachProducts (plan_of t.now f.now.places.now) t.now.l_starts.now j reach.now next.old f.now.l_values.now f.now.diag.now f.now.d.now f.now.cache.now w.old.c.now count next.new w.new.c.now result }
    ensures same { SameWorking w.old w.new }
{
    let mut n = count;
    for &reaching in reach {
        let k = reaching as usize;
        let from = next[k];
        let end = t.l_starts[k + 1] as usize;
        let p = Part {
            k,
            from: from as usize,
            end,
        };
        n = apply_column(t, f, j, &p, w, n);
        next[k] = from + 1;
    }
    n
}
