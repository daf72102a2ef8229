// The plan of a night, from A's tables, the permutation and the late flags: what L has in all, where each of its columns begins, and
// its rows. Numbers are not read: the plan of a night holds for every night of the same pattern.
// Kept: that the night has passed, as one named record, in the four calls that `plan` is cut into (`lent_core`, `exact_core`, `planned_core`, `analyze`). Tried as a struct around the
// night: its ghost field must be a proposition, so it is that this verdict accepts, and `factor_fit`, whose system has passed another verdict, would have to prove that before it can analyze.
#![tactic(auto)]

ghost use Rattle.std.specs.Prelude.{◌≡◌, ◌≤◌, OnOk};
ghost use Rattle.refusal.specs.Refusal.{done, told_by, verdict};
ghost use Rattle.needs.specs.Needs.{need_checks, lent_from, AllMet};
ghost use Rattle.tables.specs.Sound.{PlanSound};
ghost use Rattle.plan_core.specs.Plan.{told_error, handed, lent_of, places, Plans, Exact, SameOutputs, SameScratch, first_needs, first_list, early};

pub use analysis::cores::Counts;
use checks::check_plan;
use needs::first_short;
use plan_core::cores::planned_core;
pub use plan_core::{Night, Outputs, PlanError, Scratch};

// The plan of n = dims.len() blocks with m = rows.len() stored. Outputs: `order`, the permutation after the late move (n);
// `parents`, the elimination tree (n; none is 4,294,967,295); `l_starts` (n + 1) and `l_rows` (L's blocks), the rows of L below the
// diagonal, column after column, ascending. Scratch, zeros afterwards: `inverse`, `sizes`, `count`, `stamps` (n each), `heads`, `into`
// (n + 1 each), `table`, `upper` (m each). Where only `l_rows` is too short, the outputs are unchanged and scratch is zeros too; after
// any other refusal nothing is changed. Accepted, L's blocks below the diagonal, L's numbers, and the block products that make it.
pub fn plan(a: &Night, o: &mut Outputs, w: &mut Scratch) -> Result<Counts, PlanError>
    ensures plans { Plans (early (handed a.now) (lent_of o.old w.old)) (handed a.now) (lent_of o.old w.old) result (lent_of o.new w.new) }
    ensures outputs { SameOutputs o.old o.new }
    ensures scratch { SameScratch w.old w.new }
{
    check_plan(a)?;
    lent_core(
        a, o.order, o.parents, o.l_starts, o.l_rows, w.inverse, w.sizes, w.count, w.heads, w.into,
        w.stamps, w.table, w.upper,
    )
}

// The plan of tables that have passed: the buffers' needs, then the work in the first places of each.
// Kept: what is lent buffer by buffer: of a cut of a struct's field nothing is known afterwards, only of a parameter's.
fn lent_core(
    a: &Night,
    order: &mut [u32],
    parents: &mut [u32],
    l_starts: &mut [u32],
    l_rows: &mut [u32],
    inverse: &mut [u32],
    sizes: &mut [u32],
    count: &mut [u32],
    heads: &mut [u32],
    into: &mut [u32],
    stamps: &mut [u32],
    table: &mut [u32],
    upper: &mut [u32],
) -> Result<Counts, PlanError>
    requires { PlanSound a.now.dims.now a.now.starts.now a.now.rows.now a.now.perm.now a.now.late.now }
    ensures { Plans (verdict (need_checks (first_list (handed a.now) (places order.old parents.old l_starts.old l_rows.old inverse.old sizes.old count.old heads.old into.old stamps.old table.old upper.old)))) (handed a.now) (places order.old parents.old l_starts.old l_rows.old inverse.old sizes.old count.old heads.old into.old stamps.old table.old upper.old) result (places order.new parents.new l_starts.new l_rows.new inverse.new sizes.new count.new heads.new into.new stamps.new table.new upper.new) }
{
    let n = a.dims.len();
    let m = a.rows.len();
    room(
        n,
        m,
        &[
            order.len(),
            parents.len(),
            l_starts.len(),
            l_rows.len(),
            inverse.len(),
            sizes.len(),
            count.len(),
            heads.len(),
            into.len(),
            stamps.len(),
            table.len(),
            upper.len(),
        ],
    )?;
    exact_core(
        a,
        &mut order[..n],
        &mut parents[..n],
        &mut l_starts[..n + 1],
        l_rows,
        &mut inverse[..n],
        &mut sizes[..n],
        &mut count[..n],
        &mut heads[..n + 1],
        &mut into[..n + 1],
        &mut stamps[..n],
        &mut table[..m],
        &mut upper[..m],
    )
}

// The plan in buffers that each have exactly their need, L's row table apart.
// Kept: what is lent buffer by buffer. Tried with the two structs made in `lent_core`, of parts cut by `split_at_mut`: the check of the twelve buffers, each joined again to what
// stands beyond its part, outgrows its memory.
fn exact_core(
    a: &Night,
    order: &mut [u32],
    parents: &mut [u32],
    l_starts: &mut [u32],
    l_rows: &mut [u32],
    inverse: &mut [u32],
    sizes: &mut [u32],
    count: &mut [u32],
    heads: &mut [u32],
    into: &mut [u32],
    stamps: &mut [u32],
    table: &mut [u32],
    upper: &mut [u32],
) -> Result<Counts, PlanError>
    requires plan_sound { PlanSound a.now.dims.now a.now.starts.now a.now.rows.now a.now.perm.now a.now.late.now }
    requires exact { Exact (handed a.now) (places order.old parents.old l_starts.old l_rows.old inverse.old sizes.old count.old heads.old into.old stamps.old table.old upper.old) }
    ensures { Plans done (handed a.now) (places order.old parents.old l_starts.old l_rows.old inverse.old sizes.old count.old heads.old into.old stamps.old table.old upper.old) result (places order.new parents.new l_starts.new l_rows.new inverse.new sizes.new count.new heads.new into.new stamps.new table.new upper.new) }
{
    let mut o = Outputs {
        order,
        parents,
        l_starts,
        l_rows,
    };
    let mut w = Scratch {
        inverse,
        sizes,
        count,
        heads,
        into,
        stamps,
        table,
        upper,
    };
    planned_core(a, &mut o, &mut w)
}

// The needs that are known without the plan, of n blocks and m stored: of L's row table nothing.
fn room(n: usize, m: usize, have: &[usize]) -> Result<(), PlanError>
    requires { n ≤ 4096 }
    ensures says { told_by (λ w. done) told_error result ≡ verdict (need_checks (lent_from 0 have.now (first_needs n m))) }
    ensures met { OnOk result (AllMet (lent_from 0 have.now (first_needs n m))) }
{
    first_short(have, &[n, n, n + 1, 0, n, n, n, n + 1, n + 1, n, m, m])?;
    Ok(())
}
