// 12 of document 01 for a solve, where the tables have passed 1 to 9: a factor whose tables are not those of the system that it is called
// with, or a list of another length. No scratch is lent, and nothing is written.
// Kept: `PlanSound` and `Columns` are one named record each, of the night and of the factor.
ghost use Rattle.std.specs.Prelude.{◌≡◌, ◌≤◌, length};
ghost use Rattle.graph.specs.Order.{Permutes};
ghost use Rattle.refusal.specs.Refusal.{verdict};
ghost use Rattle.tables.specs.Verdict.{past_diagonal};
ghost use Rattle.tables.specs.Sound.{Sizes, Columns, PlanSound};
ghost use Rattle.solve_match.specs.Verdict.{shape_checks, match_verdict};
ghost use Rattle.solve_match.specs.Outcome.{told_matched};

use crate::MatchError;
use factor_match::cores::first_wrong;
use factor_order::cores::{offsets_are, order_is};
use factor_tables::cores::unit_numbers;
use lists::{Factor, Night};
use match_rows::cores::Links;
use scalars::cores::scalar_count;

// The first of them, in the order of the call. The factor's numbers and the right side are tested by their counts alone: the lists of numbers
// in `factor` are not read.
//     diag, d, x   how many numbers the unit factors, the pivots and the right side have
#[tactic(auto, using(crate::proofs::TestLaws::match_laws))]
pub fn first_mismatch(
    night: &Night,
    factor: &Factor,
    diag: usize,
    d: usize,
    x: usize,
) -> Result<(), MatchError>
    requires { PlanSound night.now.dims.now night.now.starts.now night.now.rows.now night.now.perm.now night.now.late.now × Columns past_diagonal (length night.now.dims.now) factor.now.l_starts.now factor.now.l_rows.now }
    ensures { told_matched result ≡ match_verdict night.now.dims.now night.now.starts.now night.now.rows.now night.now.perm.now night.now.late.now factor.now.order.now factor.now.parents.now factor.now.l_starts.now factor.now.l_rows.now factor.now.l_offsets.now diag d x }
{
    if !order_is(night, factor.order) {
        return Err(MatchError::Mismatch { place: 5 });
    }
    if factor.parents.len() != night.dims.len() {
        return Err(MatchError::Mismatch { place: 6 });
    }
    let links = Links {
        starts: night.starts,
        rows: night.rows,
        order: factor.order,
    };
    first_wrong(&links, factor.parents, factor.l_starts, factor.l_rows)?;
    first_shape(night.dims, factor, diag, d, x)
}

// The last of them: the offsets, and the counts of the numbers.
#[tactic(auto, using(crate::proofs::TestLaws::shape_laws))]
pub fn first_shape(
    dims: &[u32],
    factor: &Factor,
    diag: usize,
    d: usize,
    x: usize,
) -> Result<(), MatchError>
    requires { (length dims.now ≤ 4096) × Sizes dims.now × Permutes (length dims.now) factor.now.order.now × Columns past_diagonal (length dims.now) factor.now.l_starts.now factor.now.l_rows.now }
    ensures { told_matched result ≡ verdict (shape_checks dims.now factor.now.order.now factor.now.l_starts.now factor.now.l_rows.now factor.now.l_offsets.now diag d x) }
{
    if !offsets_are(dims, factor) {
        return Err(MatchError::Mismatch { place: 9 });
    }
    if diag != unit_numbers(dims) {
        return Err(MatchError::Mismatch { place: 11 });
    }
    let all = scalar_count(dims);
    if d != all {
        return Err(MatchError::Mismatch { place: 12 });
    }
    if x != all {
        return Err(MatchError::Mismatch { place: 13 });
    }
    Ok(())
}
