// Zeros in what was lent as scratch.
ghost use Rattle.scratch.specs.Scratch.{SameScratch, Cleared};

use crate::Scratch;

// Zeros in all scratch of a plan.
pub fn clear_plan(w: &mut Scratch)
    ensures cleared { Cleared w.old w.new }
    ensures same { SameScratch w.old w.new }
{
    w.inverse.fill(0);
    w.sizes.fill(0);
    w.count.fill(0);
    w.heads.fill(0);
    w.into.fill(0);
    w.stamps.fill(0);
    w.table.fill(0);
    w.upper.fill(0);
}
