// The factorization of a night's system with a cache lent.
#![tactic(auto)]

ghost use Rattle.factor_setup.specs.Exact.{handed};
ghost use Rattle.factor_core.specs.Factorize.{lent_of, SameOutputs, SameScratch};
ghost use Rattle.factor_core.specs.Cache.{FactorsWithCache};

use factor_checked::cores::factor_checked;
pub use factor_core::{Counts, FactorizeError, Outputs, Scratch};
pub use factor_setup::System;

// The factor of `factorize::factorize`, which names what is handed in and lent, with one more buffer of scratch, `cache`. Each product of
// blocks i, j and k takes Q(i), which is L(i, k) times the unit factor of k: `factorize` works it out again for each j; here it is worked out
// when column k is finished, and kept. Where `cache` is long enough, answer, outputs and count are those of `factorize`.
//
// The need of `cache` is the lesser of L's numbers and 16 × (1 + the entries and numbers handed in), which are those of `dims`, `starts`,
// `rows`, `values`, `perm` and `late`. Only so many places of it are used: a Q(i) that does not stand in them is worked out as in
// `factorize`. In a refusal by 11 it is buffer 21. Its need is tested after that of `l_values` and before that of `l_rows`, since only the
// plan shows it.
//
// What is left is as `factorize` says, where 11 for `cache` is as 11 for `l_rows`; and in `cache`:
// - Accepted, refused by 13 or 14, or refused by 11 for `l_offsets`, `l_values`, `cache` or `l_rows`: zeros as far as its need goes; where
//   `cache` itself is too short, in all of it.
// - Refused by 1 to 10, or by 11 for any other buffer: as it was.
pub fn factorize_with_cache(
    s: &System,
    o: &mut Outputs,
    w: &mut Scratch,
    cache: &mut [f64],
) -> Result<Counts, FactorizeError>
    ensures factors { FactorsWithCache (handed s.now) (lent_of o.old w.old) cache.old result (lent_of o.new w.new) cache.new }
    ensures outputs { SameOutputs o.old o.new }
    ensures scratch { SameScratch w.old w.new }
{
    factor_checked(s, o, w, 16, cache)
}
