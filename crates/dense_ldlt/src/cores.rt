// The decomposition where the lengths are known to be right.
// Kept: how long each slice is, as a fact about sizes that the slices of a call share: structs with sizes of their own would need as many facts, that these agree.
ghost use Rattle.std.specs.Prelude.{◌≡◌, ◌*◌, length};
ghost use Rattle.dense_ldlt.specs.Ldlt.{ldlt};

use dense_pivots::LdltResult;
use dense_pivots::cores::Pivots;
use dense_rows::cores::{clear_upper, divide_row, kept_of};
use scalar::cores::store;
use scalar::{blank, is_finite};

// The core's refusal: the pivot of row `place` is NaN or infinite.
#[derive(Clone, Copy, Debug, PartialEq)]
pub struct NotFinite {
    pub place: usize,
    pub pivot: f64,
}

// The lower triangle of A becomes that of L, with 1.0 on the diagonal and 0.0 above it, and d the diagonal of D; after a pivot
// that is not finite both are NaNs in full.
pub fn ldlt_decompose_core(
    n: usize,
    a: &mut [f64],
    d: &mut [f64],
    tol: f64,
) -> Result<LdltResult, NotFinite>
    requires a_len { length a.old ≡ n * n }
    requires d_len { length d.old ≡ n }
    ensures { (result, a.new, d.new) ≡ ldlt n tol a.old }
{
    let mut p = Pivots {
        greatest: 1.0,
        least: 1.7976931348623157e308,
        rank: 0,
        dropped: false,
        negative: false,
    };
    for j in 0..n {
        let tolerance = p.greatest * tol;
        let x = divide_row(n, j, tolerance, a, d);
        if !is_finite(x) {
            blank(a);
            blank(d);
            return Err(NotFinite { place: j, pivot: x });
        }
        let kept = kept_of(tolerance, x);
        d[j] = kept;
        p = p.counted(kept);
        store(a, n, n, j, j, 1.0);
    }
    clear_upper(n, a);
    Ok(p.recorded())
}
