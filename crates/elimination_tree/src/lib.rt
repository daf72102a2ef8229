// The elimination tree of an upper pattern, of elimination_tree.rs: Liu's algorithm with path compression.
#![tactic(auto)]

pub mod cores;

ghost use Rattle.tables.specs.Sound.{UpperSound};
ghost use Rattle.refusal.specs.Refusal.{verdict};
ghost use Rattle.needs.specs.Needs.{told_error as told_short};
ghost use Rattle.std.specs.Prelude.{◌≡◌, length};
ghost use Rattle.upper_checks.specs.Outcome.{told_upper_error};
ghost use Rattle.elimination_tree.specs.New.{told_error, needs, new_verdict, Grows};

use crate::cores::new_core;
use needs::{ShortBuffer, first_short};
use refusal::Refusal;
use upper_checks::{UpperError, check_upper};

// The refusals of `new`.
#[derive(Clone, Copy, Debug, PartialEq, Eq)]
pub enum TreeError {
    // 1
    Blocks,
    // 3: the entry of the column starts.
    Starts { place: usize },
    // 5: the entry of the row table.
    Row { place: usize },
    // 6: the entry of the row table.
    Order { place: usize },
    // 11: 0 is the parents, 1 the ancestors.
    Short { which: usize, need: usize },
}

impl Refusal for TreeError {
    ghost told = { told_error };

    fn number(&self) -> u32 {
        match self {
            TreeError::Blocks => 1,
            TreeError::Starts { place: _ } => 3,
            TreeError::Row { place: _ } => 5,
            TreeError::Order { place: _ } => 6,
            TreeError::Short { which: _, need: _ } => 11,
        }
    }
}

// A pattern that is refused refuses the tree in the same words.
// Kept: each call's error has just that call's cases, as document 01 lists them, so each goes into the next case by case.
impl From<UpperError> for TreeError {
    ghost from_gives = { λ e r. told_error r ≡ told_upper_error e };

    fn from(e: UpperError) -> TreeError {
        match e {
            UpperError::Blocks => TreeError::Blocks,
            UpperError::Starts { place } => TreeError::Starts { place },
            UpperError::Row { place } => TreeError::Row { place },
            UpperError::Order { place } => TreeError::Order { place },
        }
    }
}

impl From<ShortBuffer> for TreeError {
    ghost from_gives = { λ e r. told_error r ≡ told_short e };

    fn from(e: ShortBuffer) -> TreeError {
        TreeError::Short {
            which: e.which,
            need: e.need,
        }
    }
}

// The parents of n blocks, in the first n places, from an upper pattern: column j lists rows ascending, of which those from j on
// are skipped. None is 4,294,967,295. `ancestors` is scratch of n places. After a refusal nothing is changed.
pub fn new(
    n: usize,
    starts: &[u32],
    rows: &[u32],
    parents: &mut [u32],
    ancestors: &mut [u32],
) -> Result<(), TreeError>
    ensures { Grows (new_verdict n starts.now rows.now (length parents.old) (length ancestors.old)) n starts.now rows.now parents.old ancestors.old result parents.new ancestors.new }
{
    check_upper(n, starts, rows)?;
    grown_core(n, starts, rows, parents, ancestors)
}

// The tree of a pattern that has passed: the buffers' needs, then the work.
fn grown_core(
    n: usize,
    starts: &[u32],
    rows: &[u32],
    parents: &mut [u32],
    ancestors: &mut [u32],
) -> Result<(), TreeError>
    requires { UpperSound n starts.now rows.now }
    ensures { Grows (verdict (needs n (length parents.old) (length ancestors.old))) n starts.now rows.now parents.old ancestors.old result parents.new ancestors.new }
{
    first_short(&[parents.len(), ancestors.len()], &[n, n])?;
    new_core(starts, rows, &mut parents[..n], &mut ancestors[..n]);
    ancestors[..n].fill(0);
    Ok(())
}
