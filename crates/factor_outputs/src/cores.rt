// The factorization in outputs that may be longer than their needs: it is worked out in the first places of each.
ghost use Rattle.refusal.specs.Refusal.{done};
ghost use Rattle.factor_setup.specs.Exact.{handed};
ghost use Rattle.factor_core.specs.Factorize.{lent, SameScratch};
ghost use Rattle.factor_core.specs.Cache.{FactorsKept};
ghost use Rattle.factor_lent.specs.Room.{Enough, OutputRoom, PlanScratch, NumberScratch};

use factor_core::{Counts, FactorizeError, Outputs, Scratch};
use factor_lent::cores::lend_scratch;
use factor_setup::Passed;
use factor_tables::cores::unit_numbers;
use scalars::cores::scalar_count;

// Each buffer but L's rows, offsets and values may be longer. The outputs are cut here.
// Kept: the outputs buffer by buffer: of what is cut from a struct's field and lent in another struct no value is known afterwards, so the promise on the first
// places does not close; of what is cut from a parameter it does.
pub fn lend(
    s: &Passed,
    order: &mut [u32],
    parents: &mut [u32],
    l_starts: &mut [u32],
    l_rows: &mut [u32],
    l_offsets: &mut [u32],
    l_values: &mut [f64],
    diag: &mut [f64],
    d: &mut [f64],
    w: &mut Scratch,
    most: usize,
    cache: &mut [f64],
) -> Result<Counts, FactorizeError>
    requires outputs { OutputRoom Enough (handed s.now.system) order.old parents.old l_starts.old diag.old d.old }
    requires plan_scratch { PlanScratch Enough (handed s.now.system) w.old.inverse.now w.old.sizes.now w.old.count.now w.old.heads.now w.old.into.now w.old.stamps.now w.old.table.now w.old.upper.now }
    requires number_scratch { NumberScratch Enough (handed s.now.system) w.old.column.now w.old.bodies.now w.old.unit_starts.now w.old.d_starts.now w.old.places.now }
    ensures kept { FactorsKept done most (handed s.now.system) (lent order.old parents.old l_starts.old l_rows.old l_offsets.old l_values.old diag.old d.old w.old.column.now w.old.inverse.now w.old.sizes.now w.old.count.now w.old.heads.now w.old.into.now w.old.stamps.now w.old.table.now w.old.upper.now w.old.bodies.now w.old.unit_starts.now w.old.d_starts.now w.old.places.now) cache.old result (lent order.new parents.new l_starts.new l_rows.new l_offsets.new l_values.new diag.new d.new w.new.column.now w.new.inverse.now w.new.sizes.now w.new.count.now w.new.heads.now w.new.into.now w.new.stamps.now w.new.table.now w.new.upper.now w.new.bodies.now w.new.unit_starts.now w.new.d_starts.now w.new.places.now) cache.new }
    ensures same { SameScratch w.old w.new }
{
    let n = s.system.dims.len();
    let units = unit_numbers(s.system.dims);
    let scalars = scalar_count(s.system.dims);
    let (order, _) = order.split_at_mut(n);
    let (parents, _) = parents.split_at_mut(n);
    let (l_starts, _) = l_starts.split_at_mut(n + 1);
    let (diag, _) = diag.split_at_mut(units);
    let (d, _) = d.split_at_mut(scalars);
    let mut o = Outputs {
        order,
        parents,
        l_starts,
        l_rows,
        l_offsets,
        l_values,
        diag,
        d,
    };
    lend_scratch(
        s,
        &mut o,
        w.column,
        w.inverse,
        w.sizes,
        w.count,
        w.heads,
        w.into,
        w.stamps,
        w.table,
        w.upper,
        w.bodies,
        w.unit_starts,
        w.d_starts,
        w.places,
        most,
        cache,
    )
}
