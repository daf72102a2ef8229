// The solve with a diagonal from the right, of kernel.rs. Where d is 0.0 it multiplies by 0.0.
#![tactic(auto)]

pub mod cores;

ghost use Rattle.std.specs.Prelude.{◌≡◌, length, ◌*◌, OnOk};
ghost use Rattle.refusal.specs.Shaped.{told, Answers};
ghost use Rattle.kernel_diag_right.specs.DiagRight.{diag_right_matsolve, diag_right_verdict};

use crate::cores::diag_right_matsolve_core;
use refusal::{ShapeError, area, size};

// Y := Y D⁻¹, with d of n numbers and Y of m rows and n columns.
// Kept: each calls its own shapes and its own core; these two lines are all that it shares with the others.
pub fn diag_right_matsolve_inplace(
    m: usize,
    n: usize,
    d: &[f64],
    y: &mut [f64],
) -> Result<(), ShapeError>
    ensures { Answers (diag_right_verdict m n (length d.now) (length y.old)) y.old (diag_right_matsolve m n d.now y.old) result y.new }
{
    diag_right_shapes(m, n, d.len(), y.len())?;
    diag_right_matsolve_core(m, n, d, y);
    Ok(())
}

// The shapes of a solve from the right.
#[tactic(auto, using(refusal::proofs::Laws::in_order), unfolding(crate::specs::DiagRight::diag_right_verdict))]
fn diag_right_shapes(m: usize, n: usize, d: usize, y: usize) -> Result<(), ShapeError>
    ensures verdict { told result ≡ diag_right_verdict m n d y }
    ensures fits { OnOk result ((d ≡ n) × (y ≡ m * n)) }
{
    size(0, 0, m)?;
    size(0, 1, n)?;
    area(0, n, 1, d)?;
    area(1, m, n, y)
}
