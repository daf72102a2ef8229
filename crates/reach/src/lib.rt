// The walk over an elimination tree by which a column finds the columns that reach it.
#![tactic(auto)]

pub mod cores;

ghost use Rattle.std.specs.Prelude.{◌≡◌, length};
ghost use Rattle.tables.specs.Sound.{TreeSound};
ghost use Rattle.refusal.specs.Refusal.{verdict};
ghost use Rattle.needs.specs.Needs.{told_error as told_short};
ghost use Rattle.upper_checks.specs.Outcome.{told_tree_error};
ghost use Rattle.reach.specs.Walk.{told_error, needs, reach_verdict, Walks};

use crate::cores::{Mark, reach_core};
use needs::{ShortBuffer, first_short};
use refusal::Refusal;
use upper_checks::{TreeError, check_tree};

// The refusals of `reach`.
#[derive(Clone, Copy, Debug, PartialEq, Eq)]
pub enum ReachError {
    // 1
    Blocks,
    // 3: the entry of the column starts.
    Starts { place: usize },
    // 5: the entry of the row table.
    Row { place: usize },
    // 5: the block whose parent is neither none nor a greater block.
    Parent { place: usize },
    // 6: the entry of the row table.
    Order { place: usize },
    // 11: 0 is the stamps, 1 the list.
    Short { which: usize, need: usize },
    // 12: place 0 is j.
    Past { place: usize },
}

impl Refusal for ReachError {
    ghost told = { told_error };

    fn number(&self) -> u32 {
        match self {
            ReachError::Blocks => 1,
            ReachError::Starts { place: _ } => 3,
            ReachError::Row { place: _ } => 5,
            ReachError::Parent { place: _ } => 5,
            ReachError::Order { place: _ } => 6,
            ReachError::Short { which: _, need: _ } => 11,
            ReachError::Past { place: _ } => 12,
        }
    }
}

// Tables that are refused refuse the walk in the same words.
// Kept: each call's error has just that call's cases, as document 01 lists them, so each goes into the next case by case.
impl From<TreeError> for ReachError {
    ghost from_gives = { λ e r. told_error r ≡ told_tree_error e };

    fn from(e: TreeError) -> ReachError {
        match e {
            TreeError::Blocks => ReachError::Blocks,
            TreeError::Starts { place } => ReachError::Starts { place },
            TreeError::Row { place } => ReachError::Row { place },
            TreeError::Parent { place } => ReachError::Parent { place },
            TreeError::Order { place } => ReachError::Order { place },
        }
    }
}

impl From<ShortBuffer> for ReachError {
    ghost from_gives = { λ e r. told_error r ≡ told_short e };

    fn from(e: ShortBuffer) -> ReachError {
        ReachError::Short {
            which: e.which,
            need: e.need,
        }
    }
}

// The blocks that column j of an upper pattern reaches by the parents, last found first: they end the first n places of `found`.
// Accepted, the mark that the walk used and where in the first n places its list begins. `mark` and `stamps` are what the last walk left; 0 and zeros begin. After a refusal nothing is changed.
pub fn reach(
    starts: &[u32],
    rows: &[u32],
    parents: &[u32],
    j: usize,
    mark: u32,
    stamps: &mut [u32],
    found: &mut [u32],
) -> Result<Mark, ReachError>
    ensures { Walks (reach_verdict starts.now rows.now parents.now j (length stamps.old) (length found.old)) starts.now rows.now parents.now j mark stamps.old found.old result stamps.new found.new }
{
    check_tree(starts, rows, parents)?;
    walked_core(starts, rows, parents, j, mark, stamps, found)
}

// The walk over tables that have passed: the buffers' needs, the block, then the work.
fn walked_core(
    starts: &[u32],
    rows: &[u32],
    parents: &[u32],
    j: usize,
    mark: u32,
    stamps: &mut [u32],
    found: &mut [u32],
) -> Result<Mark, ReachError>
    requires { TreeSound starts.now rows.now parents.now }
    ensures { Walks (verdict (needs (length parents.now) j (length stamps.old) (length found.old))) starts.now rows.now parents.now j mark stamps.old found.old result stamps.new found.new }
{
    let n = parents.len();
    first_short(&[stamps.len(), found.len()], &[n, n])?;
    if n <= j {
        return Err(ReachError::Past { place: 0 });
    }
    let from = starts[j] as usize;
    let to = starts[j + 1] as usize;
    Ok(reach_core(
        parents,
        &rows[from..to],
        j as u32,
        mark,
        &mut stamps[..n],
        &mut found[..n],
    ))
}
