// The decomposition of a block where the lengths are known to be right.
ghost use Rattle.std.specs.Prelude.{◌≡◌, ◌*◌, length};
ghost use Rattle.block_diag_ldlt.specs.Block.{of_pivot, is_poor, block_ldlt};

use dense_ldlt::cores::{NotFinite, ldlt_decompose_core};
use dense_pivots::{Definiteness, LdltResult};
use scalar::blank;

// Why a block is refused.
#[derive(Clone, Copy, Debug, PartialEq)]
pub enum BlockError {
    // 13: the pivot of row `place` is NaN or infinite.
    NotFinite { place: usize, pivot: f64 },
    // 14: indefinite with a condition below 1e-10.
    Poor { condition: f64 },
}

impl From<NotFinite> for BlockError {
    ghost from_gives = { λ e r. r ≡ of_pivot e };

    fn from(e: NotFinite) -> BlockError {
        BlockError::NotFinite {
            place: e.place,
            pivot: e.pivot,
        }
    }
}

// The factor l and d become those of the block a; where that is refused both are NaNs in full.
pub fn decompose_core(
    n: usize,
    a: &[f64],
    l: &mut [f64],
    d: &mut [f64],
    tol: f64,
) -> Result<LdltResult, BlockError>
    requires { (length a.now ≡ n * n) × (length l.old ≡ n * n) × (length d.old ≡ n) }
    ensures { (result, l.new, d.new) ≡ block_ldlt n tol a.now }
{
    copy(a, l);
    let k = ldlt_decompose_core(n, l, d, tol)?;
    if is_poor(k) {
        blank(l);
        blank(d);
        return Err(BlockError::Poor {
            condition: k.pivot_condition,
        });
    }
    Ok(k)
}

// L begins as A.
// Kept: by `copy_from_slice` the exported calls would ask for memmove, of which the archives for C have no need.
fn copy(a: &[f64], l: &mut [f64])
    requires { length l.old ≡ length a.now }
    ensures { l.new ≡ a.now }
{
    for t in 0..a.len() {
        l[t] = a[t];
    }
}

// Whether the block is indefinite with a condition below 1e-10.
fn is_poor(r: LdltResult) -> bool
    ensures { result ≡ is_poor r }
{
    r.definiteness == Definiteness::Indefinite && r.pivot_condition < 1e-10
}
