// The solve of a night with a block factor: the tables are tested, then what is lent, then whether the factor is that of the system; only
// then anything is written.
#![tactic(auto)]

ghost use Rattle.std.specs.Prelude.{◌≡◌};
ghost use Rattle.needs.specs.Needs.{told_error as told_short};
ghost use Rattle.solve_checks.specs.Outcome.{told_solve_error};
ghost use Rattle.solve_match.specs.Outcome.{told_match_error};
ghost use Rattle.solve.specs.Solve.{told, told_error, verdict_of, called, Solves, SameLent};

pub use lists::{Factor, Night};
use needs::{ShortBuffer, first_short};
use refusal::Refusal;
use scalars::cores::scalar_count;
use solve_checks::{SolveTablesError, check_solve};
use solve_core::cores::solve_lent;
use solve_match::MatchError;
use solve_match::cores::first_mismatch;

// The refusals of `solve_inplace`.
#[derive(Clone, Copy, Debug, PartialEq, Eq)]
pub enum SolveError {
    // 1
    Blocks,
    // 2: the block.
    Dimension { place: usize },
    // 3: the entry of A's column starts.
    Starts { place: usize },
    // 3: the entry of the factor's column starts.
    LStarts { place: usize },
    // 4
    Stored,
    // 5: the entry of A's row table.
    Row { place: usize },
    // 5: the entry of the factor's row table.
    LRow { place: usize },
    // 5: the block, by new number, whose parent is neither none nor a greater block.
    Parent { block: usize },
    // 6: the entry of A's row table.
    Order { place: usize },
    // 6: the entry of the factor's row table.
    LOrder { place: usize },
    // 7: of the factor.
    LValues,
    // 8: the entry of the permutation.
    Permutation { place: usize },
    // 9: the late flag.
    Late { place: usize },
    // 11: which of the lent buffers, counted from 0 in the order of the call, and its need. 0 is x, whose length is a matter of 12.
    Short { which: usize, need: usize },
    // 12: the slice, counted from 0 in the order of the call, is not what the system has there.
    Mismatch { place: usize },
    // 12: the first wrong column of the factor, by new number, lacks a row.
    Missing { column: usize },
    // 12: it lacks none, and lists a row too many.
    Extra { column: usize },
    // 12: its rows are right, and its parent is another than the system has there.
    OtherParent { column: usize },
}

impl Refusal for SolveError {
    ghost told = { told_error };

    fn number(&self) -> u32 {
        match self {
            SolveError::Blocks => 1,
            SolveError::Dimension { place: _ } => 2,
            SolveError::Starts { place: _ } => 3,
            SolveError::LStarts { place: _ } => 3,
            SolveError::Stored => 4,
            SolveError::Row { place: _ } => 5,
            SolveError::LRow { place: _ } => 5,
            SolveError::Parent { block: _ } => 5,
            SolveError::Order { place: _ } => 6,
            SolveError::LOrder { place: _ } => 6,
            SolveError::LValues => 7,
            SolveError::Permutation { place: _ } => 8,
            SolveError::Late { place: _ } => 9,
            SolveError::Short { which: _, need: _ } => 11,
            SolveError::Mismatch { place: _ } => 12,
            SolveError::Missing { column: _ } => 12,
            SolveError::Extra { column: _ } => 12,
            SolveError::OtherParent { column: _ } => 12,
        }
    }
}

// Tables that are refused refuse the solve in the same words.
// Kept: case by case: each call's error has just that call's cases, as document 01 lists them.
impl From<SolveTablesError> for SolveError {
    ghost from_gives = { λ e r. told_error r ≡ told_solve_error e };

    fn from(e: SolveTablesError) -> SolveError {
        match e {
            SolveTablesError::Blocks => SolveError::Blocks,
            SolveTablesError::Dimension { place } => SolveError::Dimension { place },
            SolveTablesError::Starts { place } => SolveError::Starts { place },
            SolveTablesError::LStarts { place } => SolveError::LStarts { place },
            SolveTablesError::Stored => SolveError::Stored,
            SolveTablesError::Row { place } => SolveError::Row { place },
            SolveTablesError::LRow { place } => SolveError::LRow { place },
            SolveTablesError::Parent { block } => SolveError::Parent { block },
            SolveTablesError::Order { place } => SolveError::Order { place },
            SolveTablesError::LOrder { place } => SolveError::LOrder { place },
            SolveTablesError::LValues => SolveError::LValues,
            SolveTablesError::Permutation { place } => SolveError::Permutation { place },
            SolveTablesError::Late { place } => SolveError::Late { place },
        }
    }
}

// So does a short buffer.
impl From<ShortBuffer> for SolveError {
    ghost from_gives = { λ e r. told_error r ≡ told_short e };

    fn from(e: ShortBuffer) -> SolveError {
        SolveError::Short {
            which: e.which,
            need: e.need,
        }
    }
}

// And so does a factor of another system.
// Kept: case by case: each call's error has just that call's cases, as document 01 lists them.
impl From<MatchError> for SolveError {
    ghost from_gives = { λ e r. told_error r ≡ told_match_error e };

    fn from(e: MatchError) -> SolveError {
        match e {
            MatchError::Mismatch { place } => SolveError::Mismatch { place },
            MatchError::Missing { column } => SolveError::Missing { column },
            MatchError::Extra { column } => SolveError::Extra { column },
            MatchError::Parent { column } => SolveError::OtherParent { column },
        }
    }
}

// What a solve is lent.
#[derive(Drop)]
pub struct Lent<'a> {
    // The right side in old order, a number for each scalar exactly; it becomes the solution, in old order.
    pub x: &'a mut [f64],
    // Scratch, the vector by new number: the scalars.
    pub y: &'a mut [f64],
    // Scratch, the old number of each new scalar: the scalars.
    pub scalar_perm: &'a mut [u32],
    // Scratch, the dimension of each new block: n.
    pub sizes: &'a mut [u32],
    // Scratch, where the scalars of each block begin: n + 1.
    pub scalar_starts: &'a mut [u32],
}

// The solution of A x = b with the factor L D Lᵀ that `factorize` made of A: forward columns ascending, blocks, backward columns
// descending. n blocks; the scalars are the sum of the dimensions. The factor's tables must be those of this system's own plan, or it is
// stale and refused by 12; its numbers may be any.
//
// What is left:
// - Accepted: x is the solution, scratch is zeros in its needed part and beyond it as it was.
// - Refused: all is as it was.
pub fn solve_inplace(night: &Night, factor: &Factor, lent: &mut Lent) -> Result<(), SolveError>
    ensures solves { Solves (called night.now factor.now lent.old) result lent.new.x.now lent.new.y.now lent.new.scalar_perm.now lent.new.sizes.now lent.new.scalar_starts.now }
    ensures same { SameLent lent.old lent.new }
{
    check_call(night, factor, lent)?;
    solve_lent(
        night.dims,
        factor,
        lent.x,
        lent.y,
        lent.scalar_perm,
        lent.sizes,
        lent.scalar_starts,
    );
    Ok(())
}

// The checks of the call by number: 1 to 9, 11, 12. Nothing that is lent is read.
#[tactic(auto, using(crate::proofs::CallLaws::call_laws))]
fn check_call(night: &Night, factor: &Factor, lent: &Lent) -> Result<(), SolveError>
    ensures { told result ≡ verdict_of (called night.now factor.now lent.now) }
{
    check_solve(night, factor)?;
    let n = night.dims.len();
    let all = scalar_count(night.dims);
    let x = lent.x.len();
    first_short(
        &[
            x,
            lent.y.len(),
            lent.scalar_perm.len(),
            lent.sizes.len(),
            lent.scalar_starts.len(),
        ],
        &[0, all, all, n, n + 1],
    )?;
    first_mismatch(night, factor, factor.diag.len(), factor.d.len(), x)?;
    Ok(())
}
