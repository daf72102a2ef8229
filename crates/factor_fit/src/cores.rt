// The factorization where the night's tables have passed and each buffer but L's rows, offsets and values and the cache has
// exactly its need.
ghost use Rattle.std.specs.Prelude.{◌≡◌, length};
ghost use Rattle.refusal.specs.Refusal.{done};
ghost use Rattle.scratch.specs.Scratch.{SameScratch};
ghost use Rattle.factor_setup.specs.Exact.{handed};
ghost use Rattle.factor_setup.specs.Lent.{SameOutputs, SameWork};
ghost use Rattle.factor_core.specs.Factorize.{lent_in, Exact};
ghost use Rattle.factor_core.specs.Written.{Written};
ghost use Rattle.factor_core.specs.Cache.{cache_need, whole_kept, cleared_to};

use analysis::cores::analyze;
use factor_core::cores::{clear_to, factorized_by, plan_room};
use factor_core::{Counts, FactorizeError, Outputs};
use factor_made::cores::make_factor;
use factor_setup::{Passed, UpperTree, Work};
use scratch::Scratch;

// The plan in scratch, then the needs that only the plan shows, then the outputs. A cache of at most `most` numbers is used, and ends as
// zeros.
pub fn fit(
    s: &Passed,
    o: &mut Outputs,
    p: &mut Scratch,
    w: &mut Work,
    most: usize,
    cache: &mut [f64],
) -> Result<Counts, FactorizeError>
    requires exact { Exact (handed s.now.system) (lent_in o.old p.old w.old) }
    ensures written { Written (whole_kept done most (handed s.now.system) (lent_in o.old p.old w.old) (length cache.old)) (handed s.now.system) (lent_in o.old p.old w.old) result (lent_in o.new p.new w.new) }
    ensures cache_after { cache.new ≡ cleared_to (cache_need most (handed s.now.system)) cache.old }
    ensures outputs { SameOutputs o.old o.new }
    ensures scratch { SameScratch p.old p.new }
    ensures work { SameWork w.old w.new }
{
    let night = s.system.night();
    let found = analyze(&night, p);
    let stored = found.counts.stored;
    let numbers = found.counts.numbers;
    let kept = numbers.min(most);
    let room = plan_room(
        o.l_offsets.len(),
        o.l_values.len(),
        cache.len(),
        o.l_rows.len(),
        stored,
        numbers,
        kept,
    );
    if let Err(short) = room {
        clear_to(kept, cache);
        return Err(FactorizeError::from(short));
    }
    let n = s.system.dims.len();
    let inverse = &mut *p.inverse;
    let sizes = &mut *p.sizes;
    let count = &mut *p.count;
    let heads = &mut *p.heads;
    let into = &mut *p.into;
    let stamps = &mut *p.stamps;
    let upper = &mut *p.upper;
    let (tree, _) = heads.split_at(n);
    let grown = UpperTree {
        starts: &into[..],
        rows: &upper[..],
        parent: tree,
    };
    let r = make_factor(
        s,
        &found,
        &grown,
        o,
        inverse,
        sizes,
        count,
        stamps,
        w,
        &mut cache[..kept],
    );
    factorized_by(r, stored, numbers)
}
