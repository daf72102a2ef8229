// The factorization in scratch that may be longer than its needs: it is worked out in the first places of each.
ghost use Rattle.refusal.specs.Refusal.{done};
ghost use Rattle.factor_setup.specs.Exact.{handed};
ghost use Rattle.factor_core.specs.Factorize.{lent, SameOutputs};
ghost use Rattle.factor_core.specs.Cache.{FactorsKept};
ghost use Rattle.factor_lent.specs.Room.{Enough, Exactly, OutputRoom, PlanScratch, NumberScratch};

use factor_cleared::cores::factored_core;
use factor_core::{Counts, FactorizeError, Outputs};
use factor_setup::{Passed, Work};
use factor_tables::cores::work_numbers;
use scratch::Scratch;

// The outputs have exactly their needs. The scratch is cut here.
// Kept: the scratch buffer by buffer: of what is cut from a struct's field and lent in another struct no value is known afterwards, so the promise on the first
// places does not close; of what is cut from a parameter it does.
pub fn lend_scratch(
    s: &Passed,
    o: &mut Outputs,
    column: &mut [f64],
    inverse: &mut [u32],
    sizes: &mut [u32],
    count: &mut [u32],
    heads: &mut [u32],
    into: &mut [u32],
    stamps: &mut [u32],
    table: &mut [u32],
    upper: &mut [u32],
    bodies: &mut [u32],
    unit_starts: &mut [u32],
    d_starts: &mut [u32],
    places: &mut [u32],
    most: usize,
    cache: &mut [f64],
) -> Result<Counts, FactorizeError>
    requires outputs { OutputRoom Exactly (handed s.now.system) o.old.order.now o.old.parents.now o.old.l_starts.now o.old.diag.now o.old.d.now }
    requires plan_scratch { PlanScratch Enough (handed s.now.system) inverse.old sizes.old count.old heads.old into.old stamps.old table.old upper.old }
    requires number_scratch { NumberScratch Enough (handed s.now.system) column.old bodies.old unit_starts.old d_starts.old places.old }
    ensures kept { FactorsKept done most (handed s.now.system) (lent o.old.order.now o.old.parents.now o.old.l_starts.now o.old.l_rows.now o.old.l_offsets.now o.old.l_values.now o.old.diag.now o.old.d.now column.old inverse.old sizes.old count.old heads.old into.old stamps.old table.old upper.old bodies.old unit_starts.old d_starts.old places.old) cache.old result (lent o.new.order.now o.new.parents.now o.new.l_starts.now o.new.l_rows.now o.new.l_offsets.now o.new.l_values.now o.new.diag.now o.new.d.now column.new inverse.new sizes.new count.new heads.new into.new stamps.new table.new upper.new bodies.new unit_starts.new d_starts.new places.new) cache.new }
    ensures same { SameOutputs o.old o.new }
{
    let n = s.system.dims.len();
    let m = s.system.rows.len();
    let work = work_numbers(s.system.dims);
    let (column, _) = column.split_at_mut(work);
    let (inverse, _) = inverse.split_at_mut(n);
    let (sizes, _) = sizes.split_at_mut(n);
    let (count, _) = count.split_at_mut(n);
    let (heads, _) = heads.split_at_mut(n + 1);
    let (into, _) = into.split_at_mut(n + 1);
    let (stamps, _) = stamps.split_at_mut(n);
    let (table, _) = table.split_at_mut(m);
    let (upper, _) = upper.split_at_mut(m);
    let (bodies, _) = bodies.split_at_mut(m + 1);
    let (unit_starts, _) = unit_starts.split_at_mut(n + 1);
    let (d_starts, _) = d_starts.split_at_mut(n + 1);
    let (places, _) = places.split_at_mut(n);
    let mut p = Scratch {
        inverse,
        sizes,
        count,
        heads,
        into,
        stamps,
        table,
        upper,
    };
    let mut w = Work {
        column,
        bodies,
        unit_starts,
        d_starts,
        places,
    };
    factored_core(s, o, &mut p, &mut w, most, cache)
}
