// The plan of a night for callers in C and Rust. A slice is a pointer and a length, and the answer is document 01's number, 0 where
// the call is accepted.
#![tactic(auto)]

ghost use Rattle.std.specs.Prelude.{◌≡◌};
ghost use Rattle.refusal.specs.Refusal as refusal;
ghost use Rattle.report.specs.Report.{carried};
ghost use Rattle.plan_core.specs.Plan.{night, places};
ghost use Rattle.plan_core.specs.Plan as plan;
ghost use Rattle.plan_abi.specs.Number.{Exports};

use plan::{Counts, Night, Outputs, PlanError, Scratch};
use refusal::number_of;
use report::carry;

// The plan: `plan::plan`. Accepted, `told` has L's blocks, L's numbers and the products; refused, the place, or the buffer and its
// need, and zeros after.
#[unsafe(no_mangle)]
pub extern "C" fn beyqaloosh_plan(
    dims: &[u32],
    starts: &[u32],
    rows: &[u32],
    perm: &[u32],
    late: &[u32],
    order: &mut [u32],
    parents: &mut [u32],
    l_starts: &mut [u32],
    l_rows: &mut [u32],
    inverse: &mut [u32],
    sizes: &mut [u32],
    count: &mut [u32],
    heads: &mut [u32],
    into: &mut [u32],
    stamps: &mut [u32],
    table: &mut [u32],
    upper: &mut [u32],
    told: &mut [u64; 3],
) -> u32
    ensures { Exports (night dims.now starts.now rows.now perm.now late.now) (places order.old parents.old l_starts.old l_rows.old inverse.old sizes.old count.old heads.old into.old stamps.old table.old upper.old) result told.new (places order.new parents.new l_starts.new l_rows.new inverse.new sizes.new count.new heads.new into.new stamps.new table.new upper.new) }
{
    let a = Night {
        dims,
        starts,
        rows,
        perm,
        late,
    };
    let mut o = Outputs {
        order,
        parents,
        l_starts,
        l_rows,
    };
    let mut w = Scratch {
        inverse,
        sizes,
        count,
        heads,
        into,
        stamps,
        table,
        upper,
    };
    let p = plan::plan(&a, &mut o, &mut w);
    tell(p, told)
}

// The number of an outcome, and what it carries.
fn tell(p: Result<Counts, PlanError>, told: &mut [u64; 3]) -> u32
    ensures { (result ≡ refusal.number (plan.told p)) × (told.new ≡ carried (plan.told p)) }
{
    let number = number_of(&p);
    match p {
        Ok(c) => carry(told, number, c.stored as u64, c.numbers as u64, c.products),
        Err(PlanError::Blocks | PlanError::Stored) => carry(told, number, 0, 0, 0),
        Err(
            PlanError::Dimension { place }
            | PlanError::Starts { place }
            | PlanError::Row { place }
            | PlanError::Order { place }
            | PlanError::Permutation { place }
            | PlanError::Late { place },
        ) => carry(told, number, place as u64, 0, 0),
        Err(PlanError::Short { which, need }) => carry(told, number, which as u64, need as u64, 0),
    }
}
