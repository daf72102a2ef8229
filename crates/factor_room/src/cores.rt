// The factorization in buffers of any length: where one is too short it is refused, else it is worked out in the first places of each.
ghost use Rattle.refusal.specs.Refusal.{verdict};
ghost use Rattle.needs.specs.Needs.{need_checks};
ghost use Rattle.factor_setup.specs.Exact.{handed};
ghost use Rattle.factor_core.specs.Factorize.{lent_of, SameOutputs, SameScratch, first_list};
ghost use Rattle.factor_core.specs.Cache.{FactorsKept};

use factor_core::{Counts, FactorizeError, Outputs, Scratch};
use factor_outputs::cores::lend;
use factor_setup::Passed;
use factor_tables::cores::{unit_numbers, work_numbers};
use needs::first_short;
use scalars::cores::scalar_count;

// The factorization of a night whose tables have passed: the buffers' needs, then the work in the first places of each.
pub fn lent_core(
    s: &Passed,
    o: &mut Outputs,
    w: &mut Scratch,
    most: usize,
    cache: &mut [f64],
) -> Result<Counts, FactorizeError>
    ensures kept { FactorsKept (verdict (need_checks (first_list (handed s.now.system) (lent_of o.old w.old)))) most (handed s.now.system) (lent_of o.old w.old) cache.old result (lent_of o.new w.new) cache.new }
    ensures outputs { SameOutputs o.old o.new }
    ensures scratch { SameScratch w.old w.new }
{
    let n = s.system.dims.len();
    let m = s.system.rows.len();
    let units = unit_numbers(s.system.dims);
    let scalars = scalar_count(s.system.dims);
    let work = work_numbers(s.system.dims);
    first_short(
        &[
            o.order.len(),
            o.parents.len(),
            o.l_starts.len(),
            o.l_rows.len(),
            o.l_offsets.len(),
            o.l_values.len(),
            o.diag.len(),
            o.d.len(),
            w.column.len(),
            w.inverse.len(),
            w.sizes.len(),
            w.count.len(),
            w.heads.len(),
            w.into.len(),
            w.stamps.len(),
            w.table.len(),
            w.upper.len(),
            w.bodies.len(),
            w.unit_starts.len(),
            w.d_starts.len(),
            w.places.len(),
        ],
        &[
            n,
            n,
            n + 1,
            0,
            0,
            0,
            units,
            scalars,
            work,
            n,
            n,
            n,
            n + 1,
            n + 1,
            n,
            m,
            m,
            m + 1,
            n + 1,
            n + 1,
            n,
        ],
    )?;
    lend(
        s,
        o.order,
        o.parents,
        o.l_starts,
        o.l_rows,
        o.l_offsets,
        o.l_values,
        o.diag,
        o.d,
        w,
        most,
        cache,
    )
}
