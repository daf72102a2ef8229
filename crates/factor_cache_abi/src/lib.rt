// The factorization of a night with a cache lent, for callers in C and Rust. A slice is a pointer and a length, and the answer is document
// 01's number, 0 where the call is accepted.
#![tactic(auto)]

ghost use Rattle.factor_setup.specs.Exact.{system};
ghost use Rattle.factor_core.specs.Factorize.{lent};
ghost use Rattle.factor_cache_abi.specs.Number.{ExportsWithCache};

use factor_report::tell;
use factorize_with_cache::{Outputs, Scratch, System, factorize_with_cache};

// The factorization with a cache: `factorize_with_cache::factorize_with_cache`, which says what it needs and what is left in it. What is
// answered, and what `told` and `value` have, is as `factor_abi::beyqaloosh_factorize` says; the cache is buffer 21.
#[unsafe(no_mangle)]
pub extern "C" fn beyqaloosh_factorize_with_cache(
    dims: &[u32],
    starts: &[u32],
    rows: &[u32],
    values: &[f64],
    perm: &[u32],
    late: &[u32],
    tol: f64,
    order: &mut [u32],
    parents: &mut [u32],
    l_starts: &mut [u32],
    l_rows: &mut [u32],
    l_offsets: &mut [u32],
    l_values: &mut [f64],
    diag: &mut [f64],
    d: &mut [f64],
    column: &mut [f64],
    inverse: &mut [u32],
    sizes: &mut [u32],
    count: &mut [u32],
    heads: &mut [u32],
    into: &mut [u32],
    stamps: &mut [u32],
    table: &mut [u32],
    upper: &mut [u32],
    bodies: &mut [u32],
    unit_starts: &mut [u32],
    d_starts: &mut [u32],
    places: &mut [u32],
    cache: &mut [f64],
    told: &mut [u64; 3],
    value: &mut [f64; 1],
) -> u32
    ensures { ExportsWithCache (system dims.now starts.now rows.now values.now perm.now late.now tol) (lent order.old parents.old l_starts.old l_rows.old l_offsets.old l_values.old diag.old d.old column.old inverse.old sizes.old count.old heads.old into.old stamps.old table.old upper.old bodies.old unit_starts.old d_starts.old places.old) cache.old result told.new value.new (lent order.new parents.new l_starts.new l_rows.new l_offsets.new l_values.new diag.new d.new column.new inverse.new sizes.new count.new heads.new into.new stamps.new table.new upper.new bodies.new unit_starts.new d_starts.new places.new) cache.new }
{
    let s = System {
        dims,
        starts,
        rows,
        values,
        perm,
        late,
        tol,
    };
    let mut o = Outputs {
        order,
        parents,
        l_starts,
        l_rows,
        l_offsets,
        l_values,
        diag,
        d,
    };
    let mut w = Scratch {
        column,
        inverse,
        sizes,
        count,
        heads,
        into,
        stamps,
        table,
        upper,
        bodies,
        unit_starts,
        d_starts,
        places,
    };
    let f = factorize_with_cache(&s, &mut o, &mut w, cache);
    tell(f, told, value)
}
