// The factorization on any input; the cache's bound is a multiple of what is handed in, 0 for a call that is lent none.
ghost use Rattle.std.specs.Prelude.{◌≡◌, ◌+◌, ◌*◌, ◌≤◌};
ghost use Rattle.factor_setup.specs.Exact.{handed};
ghost use Rattle.factor_core.specs.Factorize.{lent_of, SameOutputs, SameScratch, early};
ghost use Rattle.factor_core.specs.Cache.{handed_in, FactorsKept};

use checks::check_system;
use factor_core::{Counts, FactorizeError, Outputs, Scratch};
use factor_room::cores::lent_core;
use factor_setup::{Passed, System};

// The tables are tested, then what is lent, then the factor is made. The cache's need is at most `scale` × (1 + the entries and numbers handed
// in).
pub fn factor_checked(
    s: &System,
    o: &mut Outputs,
    w: &mut Scratch,
    scale: usize,
    cache: &mut [f64],
) -> Result<Counts, FactorizeError>
    requires { scale ≤ 16 }
    ensures kept { FactorsKept (early (handed s.now) (lent_of o.old w.old)) (scale * (1 + handed_in (handed s.now))) (handed s.now) (lent_of o.old w.old) cache.old result (lent_of o.new w.new) cache.new }
    ensures outputs { SameOutputs o.old o.new }
    ensures scratch { SameScratch w.old w.new }
{
    check_system(s.dims, s.starts, s.rows, s.values, s.perm, s.late, s.tol)?;
    let most = kept_bound(s, scale);
    let system = *s;
    let passed = Passed { system };
    lent_core(&passed, o, w, most, cache)
}

// `scale` × (1 + the entries and numbers handed in).
fn kept_bound(s: &System, scale: usize) -> usize
    requires scale_bound { scale ≤ 16 }
    requires late_len_bound { handed_in (handed s.now) ≤ 33554432 }
    ensures { result ≡ scale * (1 + handed_in (handed s.now)) }
{
    let handed_in = s.dims.len()
        + s.starts.len()
        + s.rows.len()
        + s.values.len()
        + s.perm.len()
        + s.late.len();
    scale * (1 + handed_in)
}
