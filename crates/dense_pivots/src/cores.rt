// The account of the pivots: how it grows by one, and the record that it makes.
ghost use Rattle.std.specs.Prelude.{◌≡◌, ◌+◌, ◌^◌, ◌<◌};
ghost use Rattle.dense_pivots.specs.Pivots.{counted, recorded, definiteness_of, condition_of};

use crate::{Definiteness, LdltResult};
use scalar::{abs, max, min};

// The account of the pivots stored so far.
#[derive(Clone, Copy)]
pub struct Pivots {
    // The greatest |d|, from 1.0 on.
    pub greatest: f64,
    // The least |d| that is not 0.0.
    pub least: f64,
    // How many are not 0.0.
    pub rank: usize,
    // Whether one is 0.0.
    pub dropped: bool,
    // Whether one is below zero.
    pub negative: bool,
}

impl Pivots {
    // The account with one more stored pivot.
    pub fn counted(self, x: f64) -> Pivots
        requires { self.rank + 1 < 2 ^ 64 }
        ensures { result ≡ counted x self }
    {
        if x == 0.0 {
            return Pivots {
                dropped: true,
                ..self
            };
        }
        let size = abs(x);
        Pivots {
            greatest: max(self.greatest, size),
            least: min(self.least, size),
            rank: self.rank + 1,
            negative: x < 0.0 || self.negative,
            ..self
        }
    }

    // The record, made here alone.
    pub fn recorded(self) -> LdltResult
        ensures { result ≡ recorded self }
    {
        LdltResult {
            rank: self.rank,
            definiteness: self.definiteness(),
            pivot_condition: self.condition(),
        }
    }

    fn definiteness(self) -> Definiteness
        ensures { result ≡ definiteness_of self }
    {
        if self.negative {
            Definiteness::Indefinite
        } else if self.dropped {
            Definiteness::PositiveSemiDefinite
        } else {
            Definiteness::PositiveDefinite
        }
    }

    // The least |d| that is not 0.0 over the greatest, which is 1.0 at least; 0.0 where all are 0.0.
    fn condition(self) -> f64
        ensures { result ≡ condition_of self }
    {
        if self.rank == 0 {
            0.0
        } else {
            self.least / self.greatest
        }
    }
}
