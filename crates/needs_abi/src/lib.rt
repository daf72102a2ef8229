// The needs of every lent buffer for callers in C and Rust: a call for each call that is lent any, to be made before it. The list is in the
// order of the call, so that 11, which carries the buffer and its need, carries a place of it and what stands there. The answer is document
// 01's number, 0 where the call is accepted. Refused, the needs are zeros; `told` has the block of 2, and zeros after and else.
#![tactic(auto)]

ghost use Rattle.std.specs.Prelude.{◌≡◌, ◌≤◌, [], ◌∷◌, length, OnOk};
ghost use Rattle.refusal.specs.Refusal as refusal;
ghost use Rattle.report.specs.Report.{carried};
ghost use Rattle.tables.specs.Sound.{Sizes};
ghost use Rattle.needs_abi.specs.Outcome.{told, told_error};
ghost use Rattle.needs_abi.specs.Needs.{counts_verdict, sizes_verdict, tree_needs, reach_needs, plan_needs, factor_needs, cached_needs, shaped, solve_needs, marks_needs, ExportsNeeds};

use checks::{MAX_BLOCKS, MAX_STORED};
use factor_tables::cores::{unit_numbers, work_numbers};
use refusal::Refusal;
use report::carry;
use scalars::cores::scalar_count;
use tables::cores::first_dim;

// The refusals of a call that tells needs.
#[derive(Clone, Copy, Debug, PartialEq, Eq)]
enum NeedsError {
    // 1
    Blocks,
    // 2: the block.
    Dimension { place: usize },
    // 4
    Stored,
}

impl Refusal for NeedsError {
    ghost told = { told_error };

    fn number(&self) -> u32 {
        match self {
            NeedsError::Blocks => 1,
            NeedsError::Dimension { place: _ } => 2,
            NeedsError::Stored => 4,
        }
    }
}

// Of `beyqaloosh_elimination_tree` on so many blocks.
#[unsafe(no_mangle)]
pub extern "C" fn beyqaloosh_elimination_tree_needs(
    blocks: usize,
    needs: &mut [u64; 2],
    told: &mut [u64; 3],
) -> u32
    ensures { ExportsNeeds (counts_verdict blocks 0) (tree_needs blocks) result needs.new told.new }
{
    each_block(blocks, needs, told)
}

// Of `beyqaloosh_reach` on so many blocks.
#[unsafe(no_mangle)]
pub extern "C" fn beyqaloosh_reach_needs(
    blocks: usize,
    needs: &mut [u64; 2],
    told: &mut [u64; 3],
) -> u32
    ensures { ExportsNeeds (counts_verdict blocks 0) (reach_needs blocks) result needs.new told.new }
{
    each_block(blocks, needs, told)
}

// Of `beyqaloosh_plan` on so many blocks with so many stored. L's row table needs L's blocks, which the plan shows: 0 where they are not
// known yet, and the plan then refuses it by 11, with the need.
#[unsafe(no_mangle)]
pub extern "C" fn beyqaloosh_plan_needs(
    blocks: usize,
    stored: usize,
    l_blocks: u32,
    needs: &mut [u64; 12],
    told: &mut [u64; 3],
) -> u32
    ensures { ExportsNeeds (counts_verdict blocks stored) (plan_needs blocks stored l_blocks) result needs.new told.new }
{
    if let Err(e) = check_counts(blocks, stored) {
        *needs = [0; 12];
        return refuse(e, told);
    }
    let n = blocks as u64;
    let m = stored as u64;
    *needs = [n, n, n + 1, l_blocks as u64, n, n, n, n + 1, n + 1, n, m, m];
    carry(told, 0, 0, 0, 0)
}

// Of `beyqaloosh_factorize` on these dimensions with so many blocks stored, where the plan has told L's blocks and L's numbers.
#[unsafe(no_mangle)]
pub extern "C" fn beyqaloosh_factorize_needs(
    dims: &[u32],
    stored: usize,
    l_blocks: u32,
    l_numbers: u32,
    needs: &mut [u64; 21],
    told: &mut [u64; 3],
) -> u32
    ensures { ExportsNeeds (sizes_verdict dims.now stored) (factor_needs (shaped dims.now stored 0) l_blocks l_numbers) result needs.new told.new }
{
    if let Err(e) = check_sizes(dims, stored) {
        *needs = [0; 21];
        return refuse(e, told);
    }
    *needs = factor_list(dims, stored, l_blocks, l_numbers);
    carry(told, 0, 0, 0, 0)
}

// Of `beyqaloosh_factorize_with_cache`, where A's values are so many numbers: the same, and the cache's need last.
#[unsafe(no_mangle)]
pub extern "C" fn beyqaloosh_factorize_with_cache_needs(
    dims: &[u32],
    stored: usize,
    numbers: u32,
    l_blocks: u32,
    l_numbers: u32,
    needs: &mut [u64; 22],
    told: &mut [u64; 3],
) -> u32
    ensures { ExportsNeeds (sizes_verdict dims.now stored) (cached_needs (shaped dims.now stored numbers) l_blocks l_numbers) result needs.new told.new }
{
    if let Err(e) = check_sizes(dims, stored) {
        *needs = [0; 22];
        return refuse(e, told);
    }
    let first = factor_list(dims, stored, l_blocks, l_numbers);
    let n = dims.len();
    let handed_in = n + (n + 1) + stored + numbers as usize + n + n;
    let cache = (l_numbers as usize).min(16 * (1 + handed_in)) as u64;
    // Kept: tried by `copy_from_slice` and the last place: the search does not find what the 22 are then.
    *needs = [
        first[0], first[1], first[2], first[3], first[4], first[5], first[6], first[7], first[8],
        first[9], first[10], first[11], first[12], first[13], first[14], first[15], first[16],
        first[17], first[18], first[19], first[20], cache,
    ];
    carry(told, 0, 0, 0, 0)
}

// Of `beyqaloosh_solve_inplace` on these dimensions: the right side, which must have exactly that, then scratch.
#[unsafe(no_mangle)]
pub extern "C" fn beyqaloosh_solve_inplace_needs(
    dims: &[u32],
    needs: &mut [u64; 5],
    told: &mut [u64; 3],
) -> u32
    ensures { ExportsNeeds (sizes_verdict dims.now 0) (solve_needs dims.now) result needs.new told.new }
{
    if let Err(e) = check_sizes(dims, 0) {
        *needs = [0; 5];
        return refuse(e, told);
    }
    let n = dims.len() as u64;
    let all = scalar_count(dims) as u64;
    *needs = [all, all, all, n, n + 1];
    carry(told, 0, 0, 0, 0)
}

// Of `beyqaloosh_marks` on these dimensions.
#[unsafe(no_mangle)]
pub extern "C" fn beyqaloosh_marks_needs(
    dims: &[u32],
    needs: &mut [u64; 1],
    told: &mut [u64; 3],
) -> u32
    ensures { ExportsNeeds (sizes_verdict dims.now 0) (marks_needs dims.now) result needs.new told.new }
{
    if let Err(e) = check_sizes(dims, 0) {
        *needs = [0; 1];
        return refuse(e, told);
    }
    *needs = [scalar_count(dims) as u64];
    carry(told, 0, 0, 0, 0)
}

// Two buffers with a place for each block.
fn each_block(blocks: usize, needs: &mut [u64; 2], told: &mut [u64; 3]) -> u32
    ensures { ExportsNeeds (counts_verdict blocks 0) (blocks ∷ blocks ∷ []) result needs.new told.new }
{
    if let Err(e) = check_counts(blocks, 0) {
        *needs = [0; 2];
        return refuse(e, told);
    }
    let n = blocks as u64;
    *needs = [n, n];
    carry(told, 0, 0, 0, 0)
}

// Of a factorization without a cache, on dimensions and a count that pass.
fn factor_list(dims: &[u32], stored: usize, l_blocks: u32, l_numbers: u32) -> [u64; 21]
    requires { Sizes dims.now × (length dims.now ≤ 4096) × (stored ≤ 65536) }
    ensures { result ≡ factor_needs (shaped dims.now stored 0) l_blocks l_numbers }
{
    let n = dims.len() as u64;
    let m = stored as u64;
    let l = l_blocks as u64;
    let units = unit_numbers(dims) as u64;
    let all = scalar_count(dims) as u64;
    let work = work_numbers(dims) as u64;
    [
        n,
        n,
        n + 1,
        l,
        l + 1,
        l_numbers as u64,
        units,
        all,
        work,
        n,
        n,
        n,
        n + 1,
        n + 1,
        n,
        m,
        m,
        m + 1,
        n + 1,
        n + 1,
        n,
    ]
}

// The number of a refusal, and what it carries.
fn refuse(e: NeedsError, told: &mut [u64; 3]) -> u32
    ensures { (result ≡ refusal.number (told_error e)) × (told.new ≡ carried (told_error e)) }
{
    let number = e.number();
    match e {
        NeedsError::Blocks | NeedsError::Stored => carry(told, number, 0, 0, 0),
        NeedsError::Dimension { place } => carry(told, number, place as u64, 0, 0),
    }
}

// 1 and 4.
fn check_counts(blocks: usize, stored: usize) -> Result<(), NeedsError>
    ensures says { told result ≡ counts_verdict blocks stored }
    ensures fits { OnOk result ((blocks ≤ 4096) × (stored ≤ 65536)) }
{
    if blocks > MAX_BLOCKS {
        return Err(NeedsError::Blocks);
    }
    if stored > MAX_STORED {
        return Err(NeedsError::Stored);
    }
    Ok(())
}

// 1, 2 and 4.
fn check_sizes(dims: &[u32], stored: usize) -> Result<(), NeedsError>
    ensures says { told result ≡ sizes_verdict dims.now stored }
    ensures fits { OnOk result (Sizes dims.now × (length dims.now ≤ 4096) × (stored ≤ 65536)) }
{
    if dims.len() > MAX_BLOCKS {
        return Err(NeedsError::Blocks);
    }
    if let Some(place) = first_dim(dims) {
        return Err(NeedsError::Dimension { place });
    }
    if stored > MAX_STORED {
        return Err(NeedsError::Stored);
    }
    Ok(())
}
