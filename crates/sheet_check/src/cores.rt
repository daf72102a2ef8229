// The checks of a sheet's tables once they are unpacked, in the order of the program `fit`.
// Kept: what has been shown before a test is one named record each, `OfSheet` of the struct of the tables, `Laid` and `Stored` of the starts beside them.
ghost use Rattle.std.specs.Prelude.{◌≡◌, ◌+◌, length};
ghost use Rattle.sheet_check.specs.Checks.{Laid, Stored};
ghost use Rattle.sheet_check.specs.Outcome.{told, told_error};
ghost use Rattle.sheet_check.specs.Tables.{OfSheet, room_told, number_told, table_told};

use columns::cores::{Least, first_fall, first_row, total_area};
use contents::cores::{first_column, first_offset, make_starts};
use refusal::Refusal;
use scalar::is_tolerance;
use scalars::cores::scalar_count;
use tables::cores::{first_dim, first_late, first_perm};

// The program's room: blocks, stored blocks of A, scalars, and numbers of A's bodies.
pub const ROOM_BLOCKS: usize = 128;

pub const ROOM_STORED: usize = 1024;

pub const ROOM_SCALARS: usize = 512;

pub const ROOM_VALUES: usize = 4096;

// What an accepted sheet has: its blocks, A's stored blocks and their numbers, the scalars, and the tolerance.
#[derive(Clone, Copy)]
pub struct Night {
    pub blocks: usize,
    pub stored: usize,
    pub values: usize,
    pub scalars: usize,
    pub tol: f64,
}

// The refusals of a sheet.
#[derive(Clone, Copy, Debug, PartialEq, Eq)]
pub enum SheetError {
    // 2: the block.
    Dimension { place: usize },
    // 3: the entry of the contents.
    Column { place: usize },
    // 5: the entry of the contents.
    Row { place: usize },
    // 6: the entry of the contents.
    Order { place: usize },
    // 8: the entry of the permutation.
    Permutation { place: usize },
    // 9: the late flag.
    Late { place: usize },
    // 10
    Tolerance,
    // 15
    Length,
    // 16
    Room,
}

impl Refusal for SheetError {
    ghost told = { told_error };

    fn number(&self) -> u32 {
        match self {
            SheetError::Dimension { place: _ } => 2,
            SheetError::Column { place: _ } => 3,
            SheetError::Row { place: _ } => 5,
            SheetError::Order { place: _ } => 6,
            SheetError::Permutation { place: _ } => 8,
            SheetError::Late { place: _ } => 9,
            SheetError::Tolerance => 10,
            SheetError::Length => 15,
            SheetError::Room => 16,
        }
    }
}

// The tables of a sheet once they are unpacked, its tolerance, where its bodies begin, and how many bytes it has.
#[derive(Clone, Copy, Drop)]
pub struct Tables<'a> {
    pub dims: &'a [u32],
    pub late: &'a [u32],
    pub perm: &'a [u32],
    pub rows: &'a [u32],
    pub columns: &'a [u32],
    pub offsets: &'a [u32],
    pub tol: f64,
    pub bodies: usize,
    pub size: usize,
}

// 16 for scalars, then values; 15 for the offsets, then for the end.
#[tactic(auto, using(crate::proofs::VerdictLaws::room_laws))]
pub fn by_room(t: &Tables, starts: &[u32]) -> Result<Night, SheetError>
    requires { OfSheet t.now × Stored t.now.dims.now starts.now t.now.rows.now t.now.columns.now }
    ensures { told result ≡ room_told t.now }
{
    let scalars = scalar_count(t.dims);
    if scalars > ROOM_SCALARS {
        return Err(SheetError::Room);
    }
    let values = total_area(t.dims, starts, t.rows);
    if values > ROOM_VALUES {
        return Err(SheetError::Room);
    }
    if let Some(_) = first_offset(t.dims, t.rows, t.columns, t.offsets, t.bodies) {
        return Err(SheetError::Length);
    }
    if t.size != t.bodies + 8 * (values + scalars) {
        return Err(SheetError::Length);
    }
    Ok(Night {
        blocks: t.dims.len(),
        stored: t.rows.len(),
        values,
        scalars,
        tol: t.tol,
    })
}

// 5, 6, 8, 9, 10 by number, then what `by_room` tests.
#[tactic(auto, using(crate::proofs::VerdictLaws::number_laws))]
pub fn by_number(t: &Tables, starts: &[u32]) -> Result<Night, SheetError>
    requires { OfSheet t.now × Laid t.now.dims.now starts.now t.now.columns.now }
    ensures { told result ≡ number_told t.now }
{
    let n = t.dims.len();
    if let Some(place) = first_row(starts, t.rows, n, Least::Diagonal) {
        return Err(SheetError::Row { place });
    }
    if let Some(place) = first_fall(starts, t.rows, n) {
        return Err(SheetError::Order { place });
    }
    if let Some(place) = first_perm(t.perm, n) {
        return Err(SheetError::Permutation { place });
    }
    if let Some(place) = first_late(t.late, n) {
        return Err(SheetError::Late { place });
    }
    if !is_tolerance(t.tol) {
        return Err(SheetError::Tolerance);
    }
    by_room(t, starts)
}

// 2 and 3, then what `by_number` tests, with the starts worked out.
#[tactic(auto, using(crate::proofs::VerdictLaws::table_laws))]
pub fn by_table(t: &Tables, starts: &mut [u32]) -> Result<Night, SheetError>
    requires { OfSheet t.now × (length starts.old ≡ length t.now.dims.now + 1) }
    ensures { told result ≡ table_told t.now }
{
    let n = t.dims.len();
    if let Some(place) = first_dim(t.dims) {
        return Err(SheetError::Dimension { place });
    }
    if let Some(place) = first_column(t.columns, n) {
        return Err(SheetError::Column { place });
    }
    make_starts(t.columns, n, starts);
    by_number(t, starts)
}
