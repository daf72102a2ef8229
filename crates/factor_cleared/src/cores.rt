// The factorization where the night's tables have passed and each buffer but L's rows, offsets and values and the cache
// has exactly its need, its scratch cleared at the end.
ghost use Rattle.std.specs.Prelude.{◌≡◌, length, replicate};
ghost use Rattle.scalar.specs.Block.{zeros};
ghost use Rattle.refusal.specs.Refusal.{done};
ghost use Rattle.scratch.specs.Scratch.{SameScratch};
ghost use Rattle.factor_setup.specs.Exact.{handed};
ghost use Rattle.factor_setup.specs.Lent.{SameOutputs, SameWork};
ghost use Rattle.factor_core.specs.Factorize.{lent_in, Exact};
ghost use Rattle.factor_core.specs.Cache.{FactorsKept};

use factor_core::{Counts, FactorizeError, Outputs};
use factor_fit::cores::fit;
use factor_setup::{Passed, Work};
use scratch::Scratch;
use scratch::cores::clear_plan;

// The factorization, all scratch cleared at its end.
pub fn factored_core(
    s: &Passed,
    o: &mut Outputs,
    p: &mut Scratch,
    w: &mut Work,
    most: usize,
    cache: &mut [f64],
) -> Result<Counts, FactorizeError>
    requires exact { Exact (handed s.now.system) (lent_in o.old p.old w.old) }
    ensures kept { FactorsKept done most (handed s.now.system) (lent_in o.old p.old w.old) cache.old result (lent_in o.new p.new w.new) cache.new }
    ensures outputs { SameOutputs o.old o.new }
    ensures scratch { SameScratch p.old p.new }
    ensures work { SameWork w.old w.new }
{
    let r = fit(s, o, p, w, most, cache);
    clear_plan(p);
    clear_work(w);
    r
}

// Zeros in the working column and in what the numbers are worked out in.
fn clear_work(w: &mut Work)
    ensures column_after { w.new.column.now ≡ zeros (length w.old.column.now) }
    ensures bodies_after { w.new.bodies.now ≡ replicate (length w.old.bodies.now) 0 }
    ensures unit_starts_after { w.new.unit_starts.now ≡ replicate (length w.old.unit_starts.now) 0 }
    ensures d_starts_after { w.new.d_starts.now ≡ replicate (length w.old.d_starts.now) 0 }
    ensures places_after { w.new.places.now ≡ replicate (length w.old.places.now) 0 }
    ensures same { SameWork w.old w.new }
{
    scalar::clear(w.column);
    w.bodies.fill(0);
    w.unit_starts.fill(0);
    w.d_starts.fill(0);
    w.places.fill(0);
}
