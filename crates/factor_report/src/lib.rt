// The report of an exported factorization: the number of its outcome, three places for the indices that go with it, and one for the float.
#![tactic(auto)]

ghost use Rattle.std.specs.Prelude.{[], ◌∷◌, ◌≡◌};
ghost use Rattle.refusal.specs.Refusal as refusal;
ghost use Rattle.report.specs.Report.{carried};
ghost use Rattle.factor_core.specs.Factorize as core;
ghost use Rattle.factor_report.specs.Float.{carried_float};

use factor_core::{Counts, FactorizeError};
use refusal::number_of;

// The number of an outcome, and what it carries.
pub fn tell(f: Result<Counts, FactorizeError>, told: &mut [u64; 3], value: &mut [f64; 1]) -> u32
    ensures { (result ≡ refusal.number (core.told f)) × (told.new ≡ carried (core.told f)) × (value.new ≡ carried_float (core.told f)) }
{
    let number = number_of(&f);
    match f {
        Ok(c) => carry(
            told,
            value,
            number,
            c.stored as u64,
            c.numbers as u64,
            c.products,
            0.0,
        ),
        Err(
            FactorizeError::Blocks
            | FactorizeError::Stored
            | FactorizeError::Values
            | FactorizeError::Tolerance,
        ) => carry(told, value, number, 0, 0, 0, 0.0),
        Err(
            FactorizeError::Dimension { place }
            | FactorizeError::Starts { place }
            | FactorizeError::Row { place }
            | FactorizeError::Order { place }
            | FactorizeError::Permutation { place }
            | FactorizeError::Late { place },
        ) => carry(told, value, number, place as u64, 0, 0, 0.0),
        Err(FactorizeError::Short { which, need }) => carry(
            told,
            value,
            number,
            which as u64,
            need as u64,
            0,
            0.0,
        ),
        Err(
            FactorizeError::NotFinite {
                block,
                place,
                pivot,
            },
        ) => carry(told, value, number, block as u64, place as u64, 0, pivot),
        Err(FactorizeError::Poor { block, condition }) => carry(
            told,
            value,
            number,
            block as u64,
            0,
            0,
            condition,
        ),
    }
}

// The report is written, and the number handed back.
// Kept: a number, which is what the C interface answers.
fn carry(
    told: &mut [u64; 3],
    value: &mut [f64; 1],
    number: u32,
    first: u64,
    second: u64,
    third: u64,
    float: f64,
) -> u32
    ensures { (result ≡ number) × (told.new ≡ first ∷ second ∷ third ∷ []) × (value.new ≡ float ∷ []) }
{
    *value = [float];
    report::carry(told, number, first, second, third)
}
