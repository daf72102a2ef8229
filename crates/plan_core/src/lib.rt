// The refusals of a plan, the whole promise of it, and the plan in buffers that have exactly their needs.
#![tactic(auto)]

pub mod cores;

ghost use Rattle.std.specs.Prelude.{◌≡◌};
ghost use Rattle.checks.specs.Outcome.{told_plan_error};
ghost use Rattle.needs.specs.Needs.{told_error as told_short};
ghost use Rattle.plan_core.specs.Plan.{told_error};

use checks::PlanTablesError;
pub use lists::Night;
use needs::ShortBuffer;
use refusal::Refusal;
pub use scratch::Scratch;

// The outputs of a plan.
#[derive(Drop)]
pub struct Outputs<'a> {
    pub order: &'a mut [u32],
    pub parents: &'a mut [u32],
    pub l_starts: &'a mut [u32],
    pub l_rows: &'a mut [u32],
}

// The refusals of `plan`.
#[derive(Clone, Copy, Debug, PartialEq, Eq)]
pub enum PlanError {
    // 1
    Blocks,
    // 2: the block.
    Dimension { place: usize },
    // 3: the entry of the column starts.
    Starts { place: usize },
    // 4
    Stored,
    // 5: the entry of the row table.
    Row { place: usize },
    // 6: the entry of the row table.
    Order { place: usize },
    // 8: the entry of the permutation.
    Permutation { place: usize },
    // 9: the late flag.
    Late { place: usize },
    // 11: which lent buffer, counted from 0 in the order of the call, and its need.
    Short { which: usize, need: usize },
}

impl Refusal for PlanError {
    ghost told = { told_error };

    fn number(&self) -> u32 {
        match self {
            PlanError::Blocks => 1,
            PlanError::Dimension { place: _ } => 2,
            PlanError::Starts { place: _ } => 3,
            PlanError::Stored => 4,
            PlanError::Row { place: _ } => 5,
            PlanError::Order { place: _ } => 6,
            PlanError::Permutation { place: _ } => 8,
            PlanError::Late { place: _ } => 9,
            PlanError::Short { which: _, need: _ } => 11,
        }
    }
}

// Tables that are refused refuse the plan in the same words.
// Kept: each call's error has just that call's cases, as document 01 lists them, so each goes into the next case by case.
impl From<PlanTablesError> for PlanError {
    ghost from_gives = { λ e r. told_error r ≡ told_plan_error e };

    fn from(e: PlanTablesError) -> PlanError {
        match e {
            PlanTablesError::Blocks => PlanError::Blocks,
            PlanTablesError::Dimension { place } => PlanError::Dimension { place },
            PlanTablesError::Starts { place } => PlanError::Starts { place },
            PlanTablesError::Stored => PlanError::Stored,
            PlanTablesError::Row { place } => PlanError::Row { place },
            PlanTablesError::Order { place } => PlanError::Order { place },
            PlanTablesError::Permutation { place } => PlanError::Permutation { place },
            PlanTablesError::Late { place } => PlanError::Late { place },
        }
    }
}

impl From<ShortBuffer> for PlanError {
    ghost from_gives = { λ e r. told_error r ≡ told_short e };

    fn from(e: ShortBuffer) -> PlanError {
        PlanError::Short {
            which: e.which,
            need: e.need,
        }
    }
}
