// A factor against the system that a solve is called with, 12 of document 01.
#![tactic(auto)]

pub mod cores;

ghost use Rattle.std.specs.Prelude.{◌≡◌};
ghost use Rattle.solve_match.specs.Verdict.{told_column};
ghost use Rattle.solve_match.specs.Outcome.{told_match_error};

use factor_match::cores::ColumnError;
use refusal::Refusal;

// What of a factor or a right side is not the system's.
#[derive(Clone, Copy, Debug, PartialEq, Eq)]
pub enum MatchError {
    // 12: a slice of the solve's call, counted from 0, is not what the system has there.
    Mismatch { place: usize },
    // 12: the first wrong column of the factor lacks a row.
    Missing { column: usize },
    // 12: it lacks none, and lists a row too many.
    Extra { column: usize },
    // 12: its rows are right, and its parent is not.
    Parent { column: usize },
}

impl Refusal for MatchError {
    ghost told = { told_match_error };

    fn number(&self) -> u32 {
        12
    }
}

// A wrong column refuses the factor.
// Kept: `ColumnError` has the three cases that a column can be wrong in; the call's error has one more, so each goes into the next case by case.
impl From<ColumnError> for MatchError {
    ghost from_gives = { λ e r. told_match_error r ≡ told_column e };

    fn from(e: ColumnError) -> MatchError {
        match e {
            ColumnError::Missing { column } => MatchError::Missing { column },
            ColumnError::Extra { column } => MatchError::Extra { column },
            ColumnError::Parent { column } => MatchError::Parent { column },
        }
    }
}
