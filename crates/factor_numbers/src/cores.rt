// The numbers of a factor, where each list has exactly its need and the night's tables have passed.
ghost use Rattle.std.specs.Prelude.{◌≡◌, length};
ghost use Rattle.scalar.specs.Block.{zeros};
ghost use Rattle.elimination_tree.specs.Tree.{parents_of};
ghost use Rattle.pattern.specs.Moved.{UpperOf};
ghost use Rattle.machine.specs.System.{blocks, links};
ghost use Rattle.machine.specs.Machine as machine;
ghost use Rattle.factor_columns.specs.Columns.{told};
ghost use Rattle.factor_setup.specs.Exact.{handed, values_after, units_after, pivots_after, Tabled, NumberRoom};
ghost use Rattle.factor_numbers.specs.Spoilt.{spoilt_by};

use column_products::cores::Working;
use factor_columns::cores::{ColumnError, factor_columns};
use factor_setup::Passed;
use lists::{Matrix, Numbers, Tables};
use scalar::{blank, clear};
use work_column::cores::Scratch;

// The numbers of the factor by these tables; after a refusal they are NaN in full. The cache ends as zeros.
// Kept: list by list, as the caller has them in the fields of three structs. Tried with `Tables`, `Numbers` and the scratch of the columns made there of its fields and
// their first places: it did not close, since of what a field lends into another struct, or a cut of it, no value is known afterwards.
pub fn write_numbers(
    s: &Passed,
    tree: &[u32],
    into: &[u32],
    upper: &[u32],
    order: &[u32],
    l_starts: &[u32],
    l_rows: &[u32],
    l_offsets: &[u32],
    sizes: &[u32],
    bodies: &[u32],
    unit_starts: &[u32],
    d_starts: &[u32],
    inverse: &mut [u32],
    next: &mut [u32],
    stamps: &mut [u32],
    places: &mut [u32],
    column: &mut [f64],
    l_values: &mut [f64],
    diag: &mut [f64],
    d: &mut [f64],
    cache: &mut [f64],
) -> Result<u64, ColumnError>
    requires upper_of { UpperOf (blocks (handed s.now.system)) (links (handed s.now.system)) into.now upper.now × (tree.now ≡ parents_of (links (handed s.now.system)) (blocks (handed s.now.system))) }
    requires tabled { Tabled (handed s.now.system) order.now l_starts.now l_rows.now l_offsets.now sizes.now bodies.now unit_starts.now d_starts.now next.old stamps.old }
    requires number_room { NumberRoom (handed s.now.system) l_values.old diag.old d.old column.old inverse.old places.old }
    ensures result_value { told result ≡ machine.told (machine.run (handed s.now.system)) }
    ensures l_values_after { l_values.new ≡ values_after (handed s.now.system) (machine.run (handed s.now.system)) }
    ensures diag_after { diag.new ≡ units_after (handed s.now.system) (machine.run (handed s.now.system)) }
    ensures d_after { d.new ≡ pivots_after (handed s.now.system) (machine.run (handed s.now.system)) }
    ensures cache_after { cache.new ≡ zeros (length cache.old) }
{
    let a = Matrix {
        dims: &s.system.dims[..],
        starts: &s.system.starts[..],
        rows: &s.system.rows[..],
        values: &s.system.values[..],
        bodies: &bodies[..],
        order: &order[..],
    };
    let t = Tables {
        sizes: &sizes[..],
        l_starts: &l_starts[..],
        l_rows: &l_rows[..],
        l_offsets: &l_offsets[..],
        unit_starts: &unit_starts[..],
        d_starts: &d_starts[..],
        into: &into[..],
        upper: &upper[..],
        tree: &tree[..],
    };
    let room = Working {
        qj: &mut [0.0; 256],
        qi: &mut [0.0; 256],
        c: column,
    };
    let mut w = Scratch {
        stamps,
        out: inverse,
        next,
        room,
    };
    let mut f = Numbers {
        l_values,
        diag,
        d,
        cache,
    };
    let r = factor_columns(&a, &t, s.system.tol, places, &mut w, &mut f);
    spoil(&r, f.l_values);
    spoil(&r, f.diag);
    spoil(&r, f.d);
    clear(f.cache);
    r
}

// NaN in full where the columns were refused.
fn spoil(r: &Result<u64, ColumnError>, x: &mut [f64])
    ensures { x.new ≡ spoilt_by r.now x.old }
{
    if r.is_err() {
        blank(x);
    }
}
