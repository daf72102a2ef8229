// The product of a transposed block and a vector, of kernel.rs: each sum is gathered from 0.0, then subtracted once.
#![tactic(auto)]

pub mod cores;

ghost use Rattle.std.specs.Prelude.{◌≡◌, length, ◌*◌, OnOk};
ghost use Rattle.refusal.specs.Shaped.{told, Answers};
ghost use Rattle.kernel_vector_transpose.specs.VectorTranspose.{sub_mat_transpose_plus_vec, transpose_verdict};

use crate::cores::sub_mat_transpose_plus_vec_core;
use refusal::{ShapeError, area, size};

// x := x - Aᵀ z, with x of n numbers, A of m rows and n columns, z of m numbers.
// Kept: each calls its own shapes and its own core; these two lines are all that it shares with the others.
pub fn sub_mat_transpose_plus_vec_in_place(
    m: usize,
    n: usize,
    x: &mut [f64],
    mat_a: &[f64],
    z: &[f64],
) -> Result<(), ShapeError>
    ensures { Answers (transpose_verdict m n (length x.old) (length mat_a.now) (length z.now)) x.old (sub_mat_transpose_plus_vec m n x.old mat_a.now z.now) result x.new }
{
    transpose_shapes(m, n, x.len(), mat_a.len(), z.len())?;
    sub_mat_transpose_plus_vec_core(m, n, x, mat_a, z);
    Ok(())
}

// The shapes of a transposed block times a vector.
#[tactic(auto, using(refusal::proofs::Laws::in_order), unfolding(crate::specs::VectorTranspose::transpose_verdict))]
fn transpose_shapes(m: usize, n: usize, x: usize, a: usize, z: usize) -> Result<(), ShapeError>
    ensures verdict { told result ≡ transpose_verdict m n x a z }
    ensures fits { OnOk result ((x ≡ n) × (a ≡ m * n) × (z ≡ m)) }
{
    size(0, 0, m)?;
    size(0, 1, n)?;
    area(0, n, 1, x)?;
    area(1, m, n, a)?;
    area(2, m, 1, z)
}
