// The checks of an upper pattern, alone and with the parents of its blocks, 1, 3, 5 and 6 of document 01, on any input whatever.
#![tactic(auto)]

ghost use Rattle.std.specs.Prelude.{◌≡◌};
ghost use Rattle.tables.specs.Verdict.{upper_verdict, tree_verdict};
ghost use Rattle.upper_checks.specs.Outcome.{told_upper, told_tree, told_upper_error, told_tree_error};

use checks::MAX_BLOCKS;
use columns::cores::{Least, first_fall, first_row};
use refusal::Refusal;
use tables::cores::{first_parent, first_start};

// The refusals of a check of an upper pattern.
#[derive(Clone, Copy, Debug, PartialEq, Eq)]
pub enum UpperError {
    // 1
    Blocks,
    // 3: the entry of the column starts.
    Starts { place: usize },
    // 5: the entry of the row table.
    Row { place: usize },
    // 6: the entry of the row table.
    Order { place: usize },
}

impl Refusal for UpperError {
    ghost told = { told_upper_error };

    fn number(&self) -> u32 {
        match self {
            UpperError::Blocks => 1,
            UpperError::Starts { place: _ } => 3,
            UpperError::Row { place: _ } => 5,
            UpperError::Order { place: _ } => 6,
        }
    }
}

// The refusals of a check of an upper pattern with the parents of its blocks; places as above.
#[derive(Clone, Copy, Debug, PartialEq, Eq)]
pub enum TreeError {
    // 1
    Blocks,
    // 3
    Starts { place: usize },
    // 5, in the row table
    Row { place: usize },
    // 5, in the parents: the block.
    Parent { place: usize },
    // 6
    Order { place: usize },
}

impl Refusal for TreeError {
    ghost told = { told_tree_error };

    fn number(&self) -> u32 {
        match self {
            TreeError::Blocks => 1,
            TreeError::Starts { place: _ } => 3,
            TreeError::Row { place: _ } => 5,
            TreeError::Parent { place: _ } => 5,
            TreeError::Order { place: _ } => 6,
        }
    }
}

// An upper pattern of n blocks, whose columns may store any block's row.
#[tactic(auto, using(crate::proofs::UpperLaws::upper_laws))]
pub fn check_upper(n: usize, starts: &[u32], rows: &[u32]) -> Result<(), UpperError>
    ensures { told_upper result ≡ upper_verdict n starts.now rows.now }
{
    if n > MAX_BLOCKS {
        return Err(UpperError::Blocks);
    }
    if let Some(place) = first_start(starts, n, rows.len()) {
        return Err(UpperError::Starts { place });
    }
    if let Some(place) = first_row(starts, rows, n, Least::Any) {
        return Err(UpperError::Row { place });
    }
    if let Some(place) = first_fall(starts, rows, n) {
        return Err(UpperError::Order { place });
    }
    Ok(())
}

// An upper pattern of as many blocks as there are parents, each of which is none or a greater block.
// Kept: `check_upper` cannot be called for the pattern: the parents are tested between its rows and their order.
#[tactic(auto, using(crate::proofs::TreeLaws::tree_laws))]
pub fn check_tree(starts: &[u32], rows: &[u32], parents: &[u32]) -> Result<(), TreeError>
    ensures { told_tree result ≡ tree_verdict starts.now rows.now parents.now }
{
    let n = parents.len();
    if n > MAX_BLOCKS {
        return Err(TreeError::Blocks);
    }
    if let Some(place) = first_start(starts, n, rows.len()) {
        return Err(TreeError::Starts { place });
    }
    if let Some(place) = first_row(starts, rows, n, Least::Any) {
        return Err(TreeError::Row { place });
    }
    if let Some(place) = first_parent(parents, n) {
        return Err(TreeError::Parent { place });
    }
    if let Some(place) = first_fall(starts, rows, n) {
        return Err(TreeError::Order { place });
    }
    Ok(())
}
