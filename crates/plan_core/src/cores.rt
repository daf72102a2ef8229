// The plan where the tables have passed and each buffer but L's row table has exactly its need.
// Kept: that the night has passed, as one named record: `plan` says why it is in no struct.
ghost use Rattle.std.specs.Prelude.{◌≡◌, ◌+◌, length, replicate};
ghost use Rattle.refusal.specs.Refusal.{done};
ghost use Rattle.tables.specs.Sound.{PlanSound};
ghost use Rattle.plan_core.specs.Plan.{handed, lent_of, Plans, Exact, SameOutputs, SameScratch};

use crate::{Night, Outputs, PlanError, Scratch};
use analysis::cores::{Counts, analyze, store};
use scratch::cores::clear_plan;
use symbolic::UpperTree;

// The tree and the counts in scratch, then the need of L's row table, then the outputs. Accepted, L's blocks below the diagonal, L's
// numbers, and the block products that make it.
pub fn planned_core(a: &Night, o: &mut Outputs, w: &mut Scratch) -> Result<Counts, PlanError>
    requires plan_sound { PlanSound a.now.dims.now a.now.starts.now a.now.rows.now a.now.perm.now a.now.late.now }
    requires exact { Exact (handed a.now) (lent_of o.old w.old) }
    ensures plans { Plans done (handed a.now) (lent_of o.old w.old) result (lent_of o.new w.new) }
    ensures outputs { SameOutputs o.old o.new }
    ensures scratch { SameScratch w.old w.new }
{
    let n = a.dims.len();
    let found = analyze(a, w);
    let counts = found.counts;
    let need = counts.stored;
    if o.l_rows.len() < need {
        clear_plan(w);
        return Err(PlanError::Short { which: 3, need });
    }
    let order = &mut *o.order;
    let parents = &mut *o.parents;
    let l_starts = &mut *o.l_starts;
    let l_rows = &mut *o.l_rows;
    let inverse = &mut *w.inverse;
    let count = &mut *w.count;
    let heads = &mut *w.heads;
    let into = &mut *w.into;
    let stamps = &mut *w.stamps;
    let upper = &mut *w.upper;
    let grown = UpperTree {
        starts: &into[..],
        rows: &upper[..],
        parent: &heads[..n],
    };
    store(
        &grown,
        found.entries,
        stamps,
        inverse,
        count,
        l_starts,
        &mut l_rows[..need],
    );
    order::cores::move_late(a.perm, a.late, order);
    buckets::cores::copy(heads, parents);
    clear_plan(w);
    Ok(counts)
}
