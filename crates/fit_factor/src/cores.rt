// The factorization within the rooms of `fit`: 128 blocks, 512 scalars, 1,024 stored blocks, and 8,192 numbers of L. L then has at most
// 8,128 blocks, and the diagonal factors and the working column at most 8,192 numbers each.
// Kept: that a night has passed its checks, and that the rooms hold it, is one named record, `Within`, of the struct that is handed on.
ghost use Rattle.std.specs.Prelude.{◌≡◌, true};
ghost use Rattle.refusal.specs.Refusal.{number};
ghost use Rattle.factor_setup.specs.Exact.{handed};
ghost use Rattle.factor_core.specs.Factorize as factorization;
ghost use Rattle.fit_factor.specs.Fitted.{told, told_error, possible, roomed, Within, factor_in, SameArrays, Fits};

use factorize::{Counts, FactorizeError, Outputs, Scratch, System, factorize};
use refusal::Refusal;

// Where a night is factored: arrays of the program's room, of which the first places hold the factor.
#[derive(Drop)]
pub struct Arrays<'a> {
    pub order: &'a mut [u32; 128],
    pub parents: &'a mut [u32; 128],
    pub l_starts: &'a mut [u32; 129],
    pub l_rows: &'a mut [u32; 8128],
    pub l_offsets: &'a mut [u32; 8129],
    pub l_values: &'a mut [f64; 8192],
    pub diag: &'a mut [f64; 8192],
    pub d: &'a mut [f64; 512],
}

// The refusals of a night whose tables have passed.
#[derive(Clone, Copy, Debug, PartialEq)]
pub enum FitError {
    // 13: the pivot of row `place` of a block, by new number, is NaN or infinite.
    NotFinite {
        block: usize,
        place: usize,
        pivot: f64,
    },
    // 14: a block, by new number, is indefinite with a condition below 1e-10.
    Poor {
        block: usize,
        condition: f64,
    },
    // 16: L has more than 8,192 numbers.
    Room,
}

impl Refusal for FitError {
    ghost told = { told_error };

    fn number(&self) -> u32 {
        match self {
            FitError::NotFinite {
                block: _,
                place: _,
                pivot: _,
            } => 13,
            FitError::Poor {
                block: _,
                condition: _,
            } => 14,
            FitError::Room => 16,
        }
    }
}

// `factorize::factorize` with outputs and scratch as large as the rooms: of the needs only that of L's values may not be met. Accepted,
// L's blocks below the diagonal, L's numbers, and the block products worked through.
pub fn factor_core(s: &System, o: &mut Arrays) -> Result<Counts, FitError>
    requires { Within (handed s.now) }
    ensures fits { Fits (handed s.now) (factor_in o.old) result (factor_in o.new) }
    ensures same { SameArrays o.old o.new }
{
    let order = &mut *o.order;
    let parents = &mut *o.parents;
    let l_starts = &mut *o.l_starts;
    let l_rows = &mut *o.l_rows;
    let l_offsets = &mut *o.l_offsets;
    let l_values = &mut *o.l_values;
    let diag = &mut *o.diag;
    let d = &mut *o.d;
    let mut outputs = Outputs {
        order,
        parents,
        l_starts,
        l_rows,
        l_offsets,
        l_values,
        diag,
        d,
    };
    let mut w = Scratch {
        column: &mut [0.0; 8192],
        inverse: &mut [0; 128],
        sizes: &mut [0; 128],
        count: &mut [0; 128],
        heads: &mut [0; 129],
        into: &mut [0; 129],
        stamps: &mut [0; 128],
        table: &mut [0; 1024],
        upper: &mut [0; 1024],
        bodies: &mut [0; 1025],
        unit_starts: &mut [0; 129],
        d_starts: &mut [0; 129],
        places: &mut [0; 128],
    };
    fitted_core(factorize(s, &mut outputs, &mut w))
}

// What a factorization says where only L's values can be short, and nothing else can be wrong.
pub fn fitted_core(f: Result<Counts, FactorizeError>) -> Result<Counts, FitError>
    requires { possible (number (factorization.told f)) ≡ true }
    ensures { told result ≡ roomed (factorization.told f) }
{
    match f {
        Ok(counts) => Ok(counts),
        Err(
            FactorizeError::NotFinite {
                block,
                place,
                pivot,
            },
        ) => Err(FitError::NotFinite {
            block,
            place,
            pivot,
        }),
        Err(FactorizeError::Poor { block, condition }) => Err(FitError::Poor { block, condition }),
        Err(_) => Err(FitError::Room),
    }
}
