// The tables and the numbers of a factor, from what the analysis of the night leaves.
ghost use Rattle.std.specs.Prelude.{◌≡◌, length};
ghost use Rattle.scalar.specs.Block.{zeros};
ghost use Rattle.factor_setup.specs.Exact.{handed, numbers};
ghost use Rattle.factor_setup.specs.Lent.{SameOutputs, SameWork, Found, TableRoom, ValueRoom};
ghost use Rattle.factor_made.specs.Made.{Makes};

use analysis::cores::Analysis;
use factor_columns::cores::ColumnError;
use factor_numbers::cores::write_numbers;
use factor_setup::cores::write_tables;
use factor_setup::{Outputs, Passed, UpperTree, Work};

// The factor by what the analysis found: the tree with the upper pattern, and the counts in `count`. The cache ends as zeros.
// Kept: of the plan's scratch the lists that are written, one by one: `write_tables` says why.
pub fn make_factor(
    s: &Passed,
    found: &Analysis,
    t: &UpperTree,
    o: &mut Outputs,
    inverse: &mut [u32],
    sizes: &mut [u32],
    count: &mut [u32],
    stamps: &mut [u32],
    w: &mut Work,
    cache: &mut [f64],
) -> Result<u64, ColumnError>
    requires analyzed { Found (handed s.now.system) t.now count.old found.now × (found.now.counts.numbers ≡ numbers (handed s.now.system)) }
    requires tables { TableRoom (handed s.now.system) o.old inverse.old sizes.old stamps.old w.old }
    requires values { ValueRoom (handed s.now.system) o.old w.old }
    ensures makes { Makes (handed s.now.system) result o.old o.new }
    ensures cache_after { cache.new ≡ zeros (length cache.old) }
    ensures outputs { SameOutputs o.old o.new }
    ensures work { SameWork w.old w.new }
{
    write_tables(&s.system, found, t, o, inverse, sizes, count, stamps, w);
    let stored = found.counts.stored;
    let order = &mut *o.order;
    let l_starts = &mut *o.l_starts;
    let l_rows = &mut *o.l_rows;
    let l_offsets = &mut *o.l_offsets;
    let l_values = &mut *o.l_values;
    let diag = &mut *o.diag;
    let d = &mut *o.d;
    let column = &mut *w.column;
    let bodies = &mut *w.bodies;
    let unit_starts = &mut *w.unit_starts;
    let d_starts = &mut *w.d_starts;
    let places = &mut *w.places;
    write_numbers(
        s,
        t.parent,
        t.starts,
        &t.rows[..found.entries],
        order,
        l_starts,
        &mut l_rows[..stored],
        &mut l_offsets[..stored + 1],
        sizes,
        bodies,
        unit_starts,
        d_starts,
        inverse,
        count,
        stamps,
        places,
        column,
        &mut l_values[..found.counts.numbers],
        diag,
        d,
        cache,
    )
}
