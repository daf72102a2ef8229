// One block for callers in C and Rust: its decompositions, its solves and the product that a factorization spends its time in.
// In each call a slice is a pointer and a length, and the answer is document 01's number, 0 where the call is accepted.
#![tactic(auto)]

ghost use Rattle.std.specs.Prelude.{◌≡◌, length};
ghost use Rattle.dense_ldlt.specs.Decompose as dense;
ghost use Rattle.block_diag_ldlt.specs.Block as block;
ghost use Rattle.dense_solve.specs.Solve.{ldlt_solve, ldlt_matsolve, solve_verdict, matsolve_verdict};
ghost use Rattle.dense_solve_right.specs.SolveRight.{ldlt_right_matsolve, right_verdict};
ghost use Rattle.kernel_product.specs.Product.{sub_mat_diag_mat_t, product_verdict};
ghost use Rattle.c_abi.specs.Number.{numbered, Numbers};

use refusal::number_of;

// A of n rows and columns becomes L, and d the diagonal of D: `dense_ldlt::ldlt_decompose_inplace`.
#[unsafe(no_mangle)]
pub extern "C" fn beyqaloosh_ldlt_decompose_inplace(
    n: usize,
    mat_a_lower: &mut [f64],
    mat_d: &mut [f64],
    rel_tol: f64,
) -> u32
    ensures { (result, mat_a_lower.new, mat_d.new) ≡ numbered (dense.decomposed n mat_a_lower.old mat_d.old rel_tol) }
{
    number_of(&dense_ldlt::ldlt_decompose_inplace(n, mat_a_lower, mat_d, rel_tol))
}

// The factor mat_l and d become those of the block mat_a: `block_diag_ldlt::decompose`.
#[unsafe(no_mangle)]
pub extern "C" fn beyqaloosh_decompose(
    n: usize,
    mat_a: &[f64],
    mat_l: &mut [f64],
    d: &mut [f64],
    tol_rel: f64,
) -> u32
    ensures { (result, mat_l.new, d.new) ≡ numbered (block.decomposed n mat_a.now mat_l.old d.old tol_rel) }
{
    number_of(&block_diag_ldlt::decompose(n, mat_a, mat_l, d, tol_rel))
}

// x := A⁻¹ x: `dense_solve::ldlt_solve_inplace`.
#[unsafe(no_mangle)]
pub extern "C" fn beyqaloosh_ldlt_solve_inplace(
    n: usize,
    mat_l: &[f64],
    mat_d: &[f64],
    x: &mut [f64],
) -> u32
    ensures { Numbers (solve_verdict 0 n (length mat_l.now) (length mat_d.now) (length x.old)) x.old (ldlt_solve n mat_l.now mat_d.now x.old) result x.new }
{
    number_of(&dense_solve::ldlt_solve_inplace(n, mat_l, mat_d, x))
}

// X := A⁻¹ X: `dense_solve::ldlt_matsolve_inplace`.
#[unsafe(no_mangle)]
pub extern "C" fn beyqaloosh_ldlt_matsolve_inplace(
    n: usize,
    nrhs: usize,
    mat_l: &[f64],
    mat_d: &[f64],
    mat_x: &mut [f64],
) -> u32
    ensures { Numbers (matsolve_verdict n nrhs (length mat_l.now) (length mat_d.now) (length mat_x.old)) mat_x.old (ldlt_matsolve n nrhs mat_l.now mat_d.now mat_x.old) result mat_x.new }
{
    number_of(&dense_solve::ldlt_matsolve_inplace(n, nrhs, mat_l, mat_d, mat_x))
}

// X := X A⁻¹: `dense_solve_right::ldlt_right_matsolve_inplace`.
#[unsafe(no_mangle)]
pub extern "C" fn beyqaloosh_ldlt_right_matsolve_inplace(
    m: usize,
    n: usize,
    ld: &[f64],
    d: &[f64],
    x: &mut [f64],
) -> u32
    ensures { Numbers (right_verdict 0 m n (length ld.now) (length d.now) (length x.old)) x.old (ldlt_right_matsolve m n ld.now d.now x.old) result x.new }
{
    number_of(&dense_solve_right::ldlt_right_matsolve_inplace(m, n, ld, d, x))
}

// y := A⁻¹ y, for one block of a diagonal: `block_diag_solve::solve_inplace_vec`.
#[unsafe(no_mangle)]
pub extern "C" fn beyqaloosh_solve_inplace_vec(
    n: usize,
    mat_l: &[f64],
    d: &[f64],
    y: &mut [f64],
) -> u32
    ensures { Numbers (solve_verdict 1 n (length mat_l.now) (length d.now) (length y.old)) y.old (ldlt_solve n mat_l.now d.now y.old) result y.new }
{
    number_of(&block_diag_solve::solve_inplace_vec(n, mat_l, d, y))
}

// X := X A⁻¹, for one block of a diagonal: `block_diag_solve::right_solve_inplace`.
#[unsafe(no_mangle)]
pub extern "C" fn beyqaloosh_right_solve_inplace(
    m: usize,
    n: usize,
    mat_l: &[f64],
    d: &[f64],
    x: &mut [f64],
) -> u32
    ensures { Numbers (right_verdict 1 m n (length mat_l.now) (length d.now) (length x.old)) x.old (ldlt_right_matsolve m n mat_l.now d.now x.old) result x.new }
{
    number_of(&block_diag_solve::right_solve_inplace(m, n, mat_l, d, x))
}

// Y := Y - A diag(d) Bᵀ: `kernel_product::sub_mat_diag_mat_t_inplace`.
#[unsafe(no_mangle)]
pub extern "C" fn beyqaloosh_sub_mat_diag_mat_t_inplace(
    m: usize,
    n: usize,
    k: usize,
    y: &mut [f64],
    mat_a: &[f64],
    d: &[f64],
    mat_b: &[f64],
) -> u32
    ensures { Numbers (product_verdict m n k (length y.old) (length mat_a.now) (length d.now) (length mat_b.now)) y.old (sub_mat_diag_mat_t m n k y.old mat_a.now d.now mat_b.now) result y.new }
{
    number_of(&kernel_product::sub_mat_diag_mat_t_inplace(m, n, k, y, mat_a, d, mat_b))
}
