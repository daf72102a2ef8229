// The outcome of a factorization, the whole promise of it, and the needs that only the plan shows.
#![tactic(auto)]

pub mod cores;

ghost use Rattle.std.specs.Prelude.{◌≡◌};
ghost use Rattle.factor_core.specs.Factorize.{told_error, of_tables, of_short, of_columns};

pub use analysis::cores::Counts;
use checks::SystemError;
use factor_columns::cores::ColumnError;
pub use factor_setup::Outputs;
use needs::ShortBuffer;
use refusal::Refusal;

// What a factorization is lent to work in.
// Kept: one list of thirteen, in the order of the call, by which a refusal numbers them 8 to 20. With the plan's scratch and `Work` inside, the numbers' own would be
// 8 and 17 to 20, and each caller would build three structs for one.
#[derive(Drop)]
pub struct Scratch<'a> {
    pub column: &'a mut [f64],
    pub inverse: &'a mut [u32],
    pub sizes: &'a mut [u32],
    pub count: &'a mut [u32],
    pub heads: &'a mut [u32],
    pub into: &'a mut [u32],
    pub stamps: &'a mut [u32],
    pub table: &'a mut [u32],
    pub upper: &'a mut [u32],
    pub bodies: &'a mut [u32],
    pub unit_starts: &'a mut [u32],
    pub d_starts: &'a mut [u32],
    pub places: &'a mut [u32],
}

// The refusals of `factorize`.
#[derive(Clone, Copy, Debug, PartialEq)]
pub enum FactorizeError {
    // 1
    Blocks,
    // 2: the block.
    Dimension {
        place: usize,
    },
    // 3: the entry of the column starts.
    Starts {
        place: usize,
    },
    // 4
    Stored,
    // 5: the entry of the row table.
    Row {
        place: usize,
    },
    // 6: the entry of the row table.
    Order {
        place: usize,
    },
    // 7
    Values,
    // 8: the entry of the permutation.
    Permutation {
        place: usize,
    },
    // 9: the late flag.
    Late {
        place: usize,
    },
    // 10
    Tolerance,
    // 11: which lent buffer, counted from 0 in the order of the call, and its need.
    Short {
        which: usize,
        need: usize,
    },
    // 13: the pivot of row `place` of a block, by new number, is NaN or infinite.
    NotFinite {
        block: usize,
        place: usize,
        pivot: f64,
    },
    // 14: a block, by new number, is indefinite with a condition below 1e-10.
    Poor {
        block: usize,
        condition: f64,
    },
}

impl Refusal for FactorizeError {
    ghost told = { told_error };

    fn number(&self) -> u32 {
        match self {
            FactorizeError::Blocks => 1,
            FactorizeError::Dimension { place: _ } => 2,
            FactorizeError::Starts { place: _ } => 3,
            FactorizeError::Stored => 4,
            FactorizeError::Row { place: _ } => 5,
            FactorizeError::Order { place: _ } => 6,
            FactorizeError::Values => 7,
            FactorizeError::Permutation { place: _ } => 8,
            FactorizeError::Late { place: _ } => 9,
            FactorizeError::Tolerance => 10,
            FactorizeError::Short { which: _, need: _ } => 11,
            FactorizeError::NotFinite {
                block: _,
                place: _,
                pivot: _,
            } => 13,
            FactorizeError::Poor {
                block: _,
                condition: _,
            } => 14,
        }
    }
}

// A refusal of the tables.
// Kept: case by case: each call's error has just that call's cases, as document 01 lists them.
impl From<SystemError> for FactorizeError {
    ghost from_gives = { λ e r. r ≡ of_tables e };

    fn from(e: SystemError) -> FactorizeError {
        match e {
            SystemError::Blocks => FactorizeError::Blocks,
            SystemError::Dimension { place } => FactorizeError::Dimension { place },
            SystemError::Starts { place } => FactorizeError::Starts { place },
            SystemError::Stored => FactorizeError::Stored,
            SystemError::Row { place } => FactorizeError::Row { place },
            SystemError::Order { place } => FactorizeError::Order { place },
            SystemError::Values => FactorizeError::Values,
            SystemError::Permutation { place } => FactorizeError::Permutation { place },
            SystemError::Late { place } => FactorizeError::Late { place },
            SystemError::Tolerance => FactorizeError::Tolerance,
        }
    }
}

impl From<ShortBuffer> for FactorizeError {
    ghost from_gives = { λ e r. r ≡ of_short e };

    fn from(e: ShortBuffer) -> FactorizeError {
        FactorizeError::Short {
            which: e.which,
            need: e.need,
        }
    }
}

// A refusal of the columns.
// Kept: case by case: each call's error has just that call's cases, as document 01 lists them.
impl From<ColumnError> for FactorizeError {
    ghost from_gives = { λ e r. r ≡ of_columns e };

    fn from(e: ColumnError) -> FactorizeError {
        match e {
            ColumnError::NotFinite {
                block,
                place,
                pivot,
            } => FactorizeError::NotFinite {
                block,
                place,
                pivot,
            },
            ColumnError::Poor { block, condition } => FactorizeError::Poor { block, condition },
        }
    }
}
