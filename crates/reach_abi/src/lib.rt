// The elimination tree and the walk over it for callers in C and Rust. A slice is a pointer and a length, and the answer is document 01's
// number, 0 where the call is accepted.
#![tactic(auto)]

ghost use Rattle.std.specs.Prelude.{◌≡◌};
ghost use Rattle.refusal.specs.Refusal as refusal;
ghost use Rattle.report.specs.Report.{carried};
ghost use Rattle.elimination_tree.specs.New as tree;
ghost use Rattle.reach.specs.Walk as walk;
ghost use Rattle.reach_abi.specs.Number.{ExportsTree, ExportsReach};

use elimination_tree::TreeError;
use reach::ReachError;
use reach::cores::Mark;
use refusal::number_of;
use report::carry;

// The tree: `elimination_tree::new`. Accepted, `told` has zeros; refused, the place, or the buffer and its need, and zeros after.
#[unsafe(no_mangle)]
pub extern "C" fn beyqaloosh_elimination_tree(
    n: usize,
    starts: &[u32],
    rows: &[u32],
    parents: &mut [u32],
    ancestors: &mut [u32],
    told: &mut [u64; 3],
) -> u32
    ensures { ExportsTree n starts.now rows.now parents.old ancestors.old result told.new parents.new ancestors.new }
{
    let g = elimination_tree::new(n, starts, rows, parents, ancestors);
    tell_grown(g, told)
}

// The walk: `reach::reach`. Accepted, `told` has the mark that it used and where in the first n places of `found` its list begins;
// refused, the place, and 1 where it is in the parents, or the buffer and its need, and zeros after.
#[unsafe(no_mangle)]
pub extern "C" fn beyqaloosh_reach(
    starts: &[u32],
    rows: &[u32],
    parents: &[u32],
    j: usize,
    mark: u32,
    stamps: &mut [u32],
    found: &mut [u32],
    told: &mut [u64; 3],
) -> u32
    ensures { ExportsReach starts.now rows.now parents.now j mark stamps.old found.old result told.new stamps.new found.new }
{
    let w = reach::reach(starts, rows, parents, j, mark, stamps, found);
    tell_reached(w, told)
}

// The number of a tree's outcome, and what it carries.
fn tell_grown(g: Result<(), TreeError>, told: &mut [u64; 3]) -> u32
    ensures { (result ≡ refusal.number (tree.told g)) × (told.new ≡ carried (tree.told g)) }
{
    let number = number_of(&g);
    match g {
        Ok(_) | Err(TreeError::Blocks) => carry(told, number, 0, 0, 0),
        Err(TreeError::Starts { place } | TreeError::Row { place } | TreeError::Order { place }) =>
            carry(told, number, place as u64, 0, 0),
        Err(TreeError::Short { which, need }) => carry(told, number, which as u64, need as u64, 0),
    }
}

// The number of a walk's outcome, and what it carries.
fn tell_reached(w: Result<Mark, ReachError>, told: &mut [u64; 3]) -> u32
    ensures { (result ≡ refusal.number (walk.told w)) × (told.new ≡ carried (walk.told w)) }
{
    let number = number_of(&w);
    match w {
        Ok(m) => carry(told, number, m.mark as u64, m.top as u64, 0),
        Err(ReachError::Blocks) => carry(told, number, 0, 0, 0),
        Err(
            ReachError::Starts { place }
            | ReachError::Row { place }
            | ReachError::Order { place }
            | ReachError::Past { place },
        ) => carry(told, number, place as u64, 0, 0),
        Err(ReachError::Parent { place }) => carry(told, number, place as u64, 1, 0),
        Err(ReachError::Short { which, need }) => carry(told, number, which as u64, need as u64, 0),
    }
}
