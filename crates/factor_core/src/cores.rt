// The needs that only the plan shows, and how the end of the columns is told.
ghost use Rattle.std.specs.Prelude.{◌≡◌, ◌<◌, OnOk};
ghost use Rattle.refusal.specs.Refusal.{verdict};
ghost use Rattle.needs.specs.Needs.{need_checks, AllMet};
ghost use Rattle.needs.specs.Needs as needs;
ghost use Rattle.factor_core.specs.Written.{factorized_by, plan_needs};
ghost use Rattle.factor_core.specs.Cache.{cleared_to};

use crate::FactorizeError;
use analysis::cores::Counts;
use factor_columns::cores::ColumnError;
use needs::{ShortBuffer, enough};

// The needs that only the plan shows: L's offsets, L's values, the cache, then L's row table.
#[tactic(auto, using(refusal::proofs::Laws::in_order))]
pub fn plan_room(
    offsets: usize,
    values: usize,
    cache: usize,
    rows: usize,
    stored: usize,
    numbers: usize,
    kept: usize,
) -> Result<(), ShortBuffer>
    requires { stored < 16777216 }
    ensures says { needs.told result ≡ verdict (need_checks (plan_needs offsets values cache rows stored numbers kept)) }
    ensures met { OnOk result (AllMet (plan_needs offsets values cache rows stored numbers kept)) }
{
    enough(4, offsets, stored + 1)?;
    enough(5, values, numbers)?;
    enough(21, cache, kept)?;
    enough(3, rows, stored)
}

// Zeros in the first n places of x, as far as there are so many.
pub fn clear_to(n: usize, x: &mut [f64])
    ensures { x.new ≡ cleared_to n x.old }
{
    let m = n.min(x.len());
    scalar::clear(&mut x[..m]);
}

// How the end of the columns is told, with what L has.
pub fn factorized_by(
    r: Result<u64, ColumnError>,
    stored: usize,
    numbers: usize,
) -> Result<Counts, FactorizeError>
    ensures { result ≡ factorized_by stored numbers r }
{
    let count = r?;
    Ok(Counts {
        stored,
        numbers,
        products: count,
    })
}
