// Products of three blocks, of kernel.rs.
#![tactic(auto)]

pub mod cores;

ghost use Rattle.std.specs.Prelude.{◌≡◌, length, ◌*◌, OnOk};
ghost use Rattle.refusal.specs.Shaped.{told, Answers};
ghost use Rattle.kernel_product.specs.Product.{sub_mat_diag_mat_t, add_mat_diag_mat_t, product_verdict};

use crate::cores::{add_mat_diag_mat_t_core, sub_mat_diag_mat_t_core};
use refusal::{ShapeError, area, size};

// Y := Y - A diag(d) Bᵀ, with Y of m rows and n columns, A of m rows and k columns, d of k numbers, B of n rows and k columns.
// Kept: two names of the source, of which C calls the one that subtracts, each with its own core; they share their shapes, and both cores are `change`.
pub fn sub_mat_diag_mat_t_inplace(
    m: usize,
    n: usize,
    k: usize,
    y: &mut [f64],
    mat_a: &[f64],
    d: &[f64],
    mat_b: &[f64],
) -> Result<(), ShapeError>
    ensures { Answers (product_verdict m n k (length y.old) (length mat_a.now) (length d.now) (length mat_b.now)) y.old (sub_mat_diag_mat_t m n k y.old mat_a.now d.now mat_b.now) result y.new }
{
    product_shapes(m, n, k, y.len(), mat_a.len(), d.len(), mat_b.len())?;
    sub_mat_diag_mat_t_core(m, n, k, y, mat_a, d, mat_b);
    Ok(())
}

// Y := Y + A diag(d) Bᵀ, with Y of m rows and n columns, A of m rows and k columns, d of k numbers, B of n rows and k columns.
// Kept: two names of the source, of which C calls the one that subtracts, each with its own core; they share their shapes, and both cores are `change`.
pub fn add_mat_diag_mat_t_inplace(
    m: usize,
    n: usize,
    k: usize,
    y: &mut [f64],
    mat_a: &[f64],
    d: &[f64],
    mat_b: &[f64],
) -> Result<(), ShapeError>
    ensures { Answers (product_verdict m n k (length y.old) (length mat_a.now) (length d.now) (length mat_b.now)) y.old (add_mat_diag_mat_t m n k y.old mat_a.now d.now mat_b.now) result y.new }
{
    product_shapes(m, n, k, y.len(), mat_a.len(), d.len(), mat_b.len())?;
    add_mat_diag_mat_t_core(m, n, k, y, mat_a, d, mat_b);
    Ok(())
}

// The shapes of a product of three blocks.
#[tactic(auto, using(refusal::proofs::Laws::in_order), unfolding(crate::specs::Product::product_verdict))]
fn product_shapes(
    m: usize,
    n: usize,
    k: usize,
    y: usize,
    a: usize,
    d: usize,
    b: usize,
) -> Result<(), ShapeError>
    ensures verdict { told result ≡ product_verdict m n k y a d b }
    ensures fits { OnOk result ((y ≡ m * n) × (a ≡ m * k) × (d ≡ k) × (b ≡ n * k)) }
{
    size(0, 0, m)?;
    size(0, 1, n)?;
    size(0, 2, k)?;
    area(0, m, n, y)?;
    area(1, m, k, a)?;
    area(2, k, 1, d)?;
    area(3, n, k, b)
}
