// The product of a block and a vector, of kernel.rs: each sum is gathered from 0.0, then subtracted once.
#![tactic(auto)]

pub mod cores;

ghost use Rattle.std.specs.Prelude.{◌≡◌, length, ◌*◌, OnOk};
ghost use Rattle.refusal.specs.Shaped.{told, Answers};
ghost use Rattle.kernel_vector.specs.Vector.{sub_mat_plus_vec, vector_verdict};

use crate::cores::sub_mat_plus_vec_core;
use refusal::{ShapeError, area, size};

// y := y - A b, with y of m numbers, A of m rows and n columns, b of n numbers.
// Kept: each calls its own shapes and its own core; these two lines are all that it shares with the others.
pub fn sub_mat_plus_vec_inplace(
    m: usize,
    n: usize,
    y: &mut [f64],
    mat_a: &[f64],
    b: &[f64],
) -> Result<(), ShapeError>
    ensures { Answers (vector_verdict m n (length y.old) (length mat_a.now) (length b.now)) y.old (sub_mat_plus_vec m n y.old mat_a.now b.now) result y.new }
{
    vector_shapes(m, n, y.len(), mat_a.len(), b.len())?;
    sub_mat_plus_vec_core(m, n, y, mat_a, b);
    Ok(())
}

// The shapes of a block times a vector.
#[tactic(auto, using(refusal::proofs::Laws::in_order), unfolding(crate::specs::Vector::vector_verdict))]
fn vector_shapes(m: usize, n: usize, y: usize, a: usize, b: usize) -> Result<(), ShapeError>
    ensures verdict { told result ≡ vector_verdict m n y a b }
    ensures fits { OnOk result ((y ≡ m) × (a ≡ m * n) × (b ≡ n)) }
{
    size(0, 0, m)?;
    size(0, 1, n)?;
    area(0, m, 1, y)?;
    area(1, m, n, a)?;
    area(2, n, 1, b)
}
