// The factorization of a night's system: the tables are tested, then what is lent, then L is planned and worked out, column after
// column, in the first places of what is lent.
#![tactic(auto)]

ghost use Rattle.factor_setup.specs.Exact.{handed};
ghost use Rattle.factor_core.specs.Factorize.{lent_of, SameOutputs, SameScratch, Factors, early};

use factor_checked::cores::factor_checked;
pub use factor_core::{Counts, FactorizeError, Outputs, Scratch};
pub use factor_setup::System;

// The factor L D Lᵀ of A under the permutation after the late move, n = dims.len() blocks with m = rows.len() stored. Accepted, it hands back
// L's blocks, L's numbers, and the block products worked through.
//
// Handed in: `dims`, the dimension of each block; `starts`, `rows` and `values`, A from the diagonal down, column after column, each body
// column-major; `perm`, the old number of each new one; `late`, a flag 0 or 1 for each block; `tol`, the relative tolerance of a pivot.
//
// Outputs, by new number, bodies column-major, each with its need:
// - `order`, the permutation after the late move (n).
// - `parents`, the elimination tree (n; none is 4,294,967,295).
// - `l_starts` (n + 1) and `l_rows` (L's blocks), the rows of L below the diagonal, column after column, ascending.
// - `l_offsets`, where the body of each of them begins, and L's numbers last (L's blocks + 1).
// - `l_values`, those bodies (L's numbers).
// - `diag`, the unit factors of the diagonal blocks (the sum of the dimensions' squares).
// - `d`, their pivots (the scalars, which are the sum of the dimensions).
//
// Scratch, each with its need: `column`, the working column (scalars × largest dimension); `inverse`, `sizes`, `count`, `stamps`,
// `places` (n each); `heads`, `into`, `unit_starts`, `d_starts` (n + 1 each); `table`, `upper` (m each); `bodies` (m + 1).
//
// What is left:
// - Accepted: the outputs hold the factor, scratch is zeros.
// - Refused by 13 or 14: `order`, `parents` and L's tables are the plan's, `l_values`, `diag` and `d` are NaN, scratch is zeros.
// - Refused by 11 for `l_offsets`, `l_values` or `l_rows`, whose needs only the plan shows: the outputs are as they were, scratch is
//   zeros.
// - Refused by 1 to 10, or by 11 for any other buffer: all is as it was.
// A place beyond its buffer's need is always as it was.
pub fn factorize(s: &System, o: &mut Outputs, w: &mut Scratch) -> Result<Counts, FactorizeError>
    ensures factors { Factors (early (handed s.now) (lent_of o.old w.old)) (handed s.now) (lent_of o.old w.old) result (lent_of o.new w.new) }
    ensures outputs { SameOutputs o.old o.new }
    ensures scratch { SameScratch w.old w.new }
{
    factor_checked(s, o, w, 0, &mut [])
}
