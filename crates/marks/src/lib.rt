// A mark for each scalar of a night: silent where its stored d equals 0.0, so that its 0.0 is no evidence, else heard.
#![tactic(auto)]

pub mod cores;

ghost use Rattle.std.specs.Prelude.{◌≡◌, length};
ghost use Rattle.marks.specs.Marks.{told_error, Marks, marks_verdict};

use crate::cores::mark_core;
use checks::MAX_BLOCKS;
use refusal::Refusal;
use scalar::is_tolerance;
use scalars::cores::scalar_count;
use tables::cores::{first_dim, first_perm};

// What an accepted call hands back.
#[derive(Clone, Copy, Debug, PartialEq, Eq)]
pub struct Tally {
    // How many scalars are silent.
    pub silent: usize,
}

// The refusals of `marks`.
#[derive(Clone, Copy, Debug, PartialEq, Eq)]
pub enum MarksError {
    // 1
    Blocks,
    // 2: the block.
    Dimension { place: usize },
    // 8: the entry of the order.
    Permutation { place: usize },
    // 10
    Tolerance,
    // 11: the only lent buffer, 0, and its need.
    Short { which: usize, need: usize },
    // 12: d, the slice 2 of the call, has not a number for each scalar.
    Shape { place: usize },
}

impl Refusal for MarksError {
    ghost told = { told_error };

    fn number(&self) -> u32 {
        match self {
            MarksError::Blocks => 1,
            MarksError::Dimension { place: _ } => 2,
            MarksError::Permutation { place: _ } => 8,
            MarksError::Tolerance => 10,
            MarksError::Short { which: _, need: _ } => 11,
            MarksError::Shape { place: _ } => 12,
        }
    }
}

// One byte per scalar, in old order, goes to the first places of `marks`, as many as there are scalars: 0 silent, 1 heard. `order` is
// the old number of each new block and d the stored pivots by new number, both as `factorize` leaves them. Refused, `marks` is as it
// was; places beyond the scalars always are.
pub fn marks(
    dims: &[u32],
    order: &[u32],
    d: &[f64],
    tol: f64,
    marks: &mut [u8],
) -> Result<Tally, MarksError>
    ensures { Marks (marks_verdict dims.now order.now (length d.now) tol (length marks.old)) dims.now order.now d.now tol marks.old result marks.new }
{
    let n = dims.len();
    if n > MAX_BLOCKS {
        return Err(MarksError::Blocks);
    }
    if let Some(place) = first_dim(dims) {
        return Err(MarksError::Dimension { place });
    }
    if let Some(place) = first_perm(order, n) {
        return Err(MarksError::Permutation { place });
    }
    if !is_tolerance(tol) {
        return Err(MarksError::Tolerance);
    }
    let need = scalar_count(dims);
    if marks.len() < need {
        return Err(MarksError::Short { which: 0, need });
    }
    if d.len() != need {
        return Err(MarksError::Shape { place: 2 });
    }
    let silent = mark_core(dims, order, d, tol, &mut [0; 4097], &mut marks[..need]);
    Ok(Tally { silent })
}
