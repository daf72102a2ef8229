// The library's functions, and the call of each. The sizes go in as the list gives them.
use block_diag_ldlt::decompose;
use block_diag_solve::{right_solve_inplace, solve_inplace_vec};
use dense_ldlt::ldlt_decompose_inplace;
use dense_solve::{ldlt_matsolve_inplace, ldlt_solve_inplace};
use dense_solve_right::ldlt_right_matsolve_inplace;
use kernel_diag::{diag_matsolve_inplaced, diag_solve_inplaced};
use kernel_diag_right::diag_right_matsolve_inplace;
use kernel_lower::{lower_matsolve_inplace, lower_solve_inplace};
use kernel_lower_transpose::{lower_transpose_matsolve_inplace, lower_transpose_solve_inplace};
use kernel_product::{add_mat_diag_mat_t_inplace, sub_mat_diag_mat_t_inplace};
use kernel_right::lower_right_solve_inplace;
use kernel_right_transpose::lower_transpose_rightsolve_inplace;
use kernel_vector::sub_mat_plus_vec_inplace;
use kernel_vector_transpose::sub_mat_transpose_plus_vec_in_place;
use replay::{count, float};
use vector_answers::Told;
use word_list::cases::BadList;

// A function of the library.
#[derive(Clone, Copy)]
pub enum Op {
    LowerSolve,
    LowerMatsolve,
    LowerTransposeSolve,
    LowerTransposeMatsolve,
    DiagSolve,
    DiagMatsolve,
    LowerRightSolve,
    LowerTransposeRightsolve,
    DiagRightMatsolve,
    SubMatDiagMatT,
    AddMatDiagMatT,
    SubMatPlusVec,
    SubMatTransposePlusVec,
    LdltDecompose,
    LdltSolve,
    LdltMatsolve,
    LdltRightMatsolve,
    Decompose,
    SolveVec,
    RightSolve,
}

// The list counts them from 1 on.
// Kept: the list's number of a function, which becomes the enum here.
impl TryFrom<usize> for Op {
    type Error = BadList;

    fn try_from(op: usize) -> Result<Op, BadList> {
        match op {
            1 => Ok(Op::LowerSolve),
            2 => Ok(Op::LowerMatsolve),
            3 => Ok(Op::LowerTransposeSolve),
            4 => Ok(Op::LowerTransposeMatsolve),
            5 => Ok(Op::DiagSolve),
            6 => Ok(Op::DiagMatsolve),
            7 => Ok(Op::LowerRightSolve),
            8 => Ok(Op::LowerTransposeRightsolve),
            9 => Ok(Op::DiagRightMatsolve),
            10 => Ok(Op::SubMatDiagMatT),
            11 => Ok(Op::AddMatDiagMatT),
            12 => Ok(Op::SubMatPlusVec),
            13 => Ok(Op::SubMatTransposePlusVec),
            14 => Ok(Op::LdltDecompose),
            15 => Ok(Op::LdltSolve),
            16 => Ok(Op::LdltMatsolve),
            17 => Ok(Op::LdltRightMatsolve),
            18 => Ok(Op::Decompose),
            19 => Ok(Op::SolveVec),
            20 => Ok(Op::RightSolve),
            _ => Err(BadList {}),
        }
    }
}

impl Op {
    // How many slices it takes.
    pub fn slices(self) -> usize {
        match self {
            Op::SubMatDiagMatT | Op::AddMatDiagMatT => 4,
            Op::SubMatPlusVec
            | Op::SubMatTransposePlusVec
            | Op::LdltSolve
            | Op::LdltMatsolve
            | Op::LdltRightMatsolve
            | Op::Decompose
            | Op::SolveVec
            | Op::RightSolve => 3,
            _ => 2,
        }
    }
}

// What a call is given beside its slices.
#[derive(Clone, Copy)]
pub struct Head {
    pub p: usize,
    pub q: usize,
    pub r: usize,
    pub tolerance: f64,
}

pub fn head_of(w: &[u8]) -> Head {
    Head {
        p: count(w, 1),
        q: count(w, 2),
        r: count(w, 3),
        tolerance: float(w, 4),
    }
}

// The call of a case whose numbers stand in a, b, c and d, as many of them as its function takes.
// Kept: a `match` over an enumeration, whose every case is a call of its own.
pub fn call(op: Op, h: Head, a: &mut [f64], b: &mut [f64], c: &mut [f64], d: &mut [f64]) -> Told {
    let (p, q, r) = (h.p, h.q, h.r);
    match op {
        Op::LowerSolve => Told::from(lower_solve_inplace(p, a, b)),
        Op::LowerMatsolve => Told::from(lower_matsolve_inplace(p, q, a, b)),
        Op::LowerTransposeSolve => Told::from(lower_transpose_solve_inplace(p, a, b)),
        Op::LowerTransposeMatsolve => Told::from(lower_transpose_matsolve_inplace(p, q, a, b)),
        Op::DiagSolve => Told::from(diag_solve_inplaced(p, a, b)),
        Op::DiagMatsolve => Told::from(diag_matsolve_inplaced(p, q, a, b)),
        Op::LowerRightSolve => Told::from(lower_right_solve_inplace(p, q, a, b)),
        Op::LowerTransposeRightsolve => {
            Told::from(lower_transpose_rightsolve_inplace(p, q, a, b))
        }
        Op::DiagRightMatsolve => Told::from(diag_right_matsolve_inplace(p, q, a, b)),
        Op::SubMatDiagMatT => Told::from(sub_mat_diag_mat_t_inplace(p, q, r, a, b, c, d)),
        Op::AddMatDiagMatT => Told::from(add_mat_diag_mat_t_inplace(p, q, r, a, b, c, d)),
        Op::SubMatPlusVec => Told::from(sub_mat_plus_vec_inplace(p, q, a, b, c)),
        Op::SubMatTransposePlusVec => {
            Told::from(sub_mat_transpose_plus_vec_in_place(p, q, a, b, c))
        }
        Op::LdltDecompose => Told::from(ldlt_decompose_inplace(p, a, b, h.tolerance)),
        Op::LdltSolve => Told::from(ldlt_solve_inplace(p, a, b, c)),
        Op::LdltMatsolve => Told::from(ldlt_matsolve_inplace(p, q, a, b, c)),
        Op::LdltRightMatsolve => Told::from(ldlt_right_matsolve_inplace(p, q, a, b, c)),
        Op::Decompose => Told::from(decompose(p, a, b, c, h.tolerance)),
        Op::SolveVec => Told::from(solve_inplace_vec(p, a, b, c)),
        Op::RightSolve => Told::from(right_solve_inplace(p, q, a, b, c)),
    }
}
