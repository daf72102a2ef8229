// The solve and the marks of a night for callers in C and Rust. A slice is a pointer and a length, and the answer is document 01's number,
// 0 where the call is accepted.
#![tactic(auto)]

ghost use Rattle.std.specs.Prelude.{◌≡◌};
ghost use Rattle.refusal.specs.Refusal as refusal;
ghost use Rattle.report.specs.Report.{carried};
ghost use Rattle.solve.specs.Solve.{call};
ghost use Rattle.solve.specs.Solve as solve;
ghost use Rattle.marks.specs.Marks as marks;
ghost use Rattle.solve_abi.specs.Number.{ExportsSolve, ExportsMarks};

use marks::{MarksError, Tally};
use refusal::number_of;
use report::carry;
use solve::{Factor, Lent, Night, SolveError, solve_inplace};

// The solve: `solve::solve_inplace`, which names each slice. Accepted, `told` has zeros; refused, the place, and 2 where it is in the
// factor's starts or rows, 1 where it is in its parents, or the buffer and its need, or of a wrong column the table, the column and what is
// wrong, and zeros after.
#[unsafe(no_mangle)]
pub extern "C" fn beyqaloosh_solve_inplace(
    dims: &[u32],
    starts: &[u32],
    rows: &[u32],
    perm: &[u32],
    late: &[u32],
    order: &[u32],
    parents: &[u32],
    l_starts: &[u32],
    l_rows: &[u32],
    l_offsets: &[u32],
    l_values: &[f64],
    diag: &[f64],
    d: &[f64],
    x: &mut [f64],
    y: &mut [f64],
    scalar_perm: &mut [u32],
    sizes: &mut [u32],
    scalar_starts: &mut [u32],
    told: &mut [u64; 3],
) -> u32
    ensures { ExportsSolve (call dims.now starts.now rows.now perm.now late.now order.now parents.now l_starts.now l_rows.now l_offsets.now l_values.now diag.now d.now x.old y.old scalar_perm.old sizes.old scalar_starts.old) result told.new x.new y.new scalar_perm.new sizes.new scalar_starts.new }
{
    let night = Night {
        dims,
        starts,
        rows,
        perm,
        late,
    };
    let factor = Factor {
        order,
        parents,
        l_starts,
        l_rows,
        l_offsets,
        l_values,
        diag,
        d,
    };
    let mut lent = Lent {
        x,
        y,
        scalar_perm,
        sizes,
        scalar_starts,
    };
    let s = solve_inplace(&night, &factor, &mut lent);
    tell_solved(s, told)
}

// The marks: `marks::marks`. Accepted, `told` has how many scalars are silent; refused, the place, or the buffer and its need, and zeros
// after.
#[unsafe(no_mangle)]
pub extern "C" fn beyqaloosh_marks(
    dims: &[u32],
    order: &[u32],
    d: &[f64],
    tol: f64,
    marks: &mut [u8],
    told: &mut [u64; 3],
) -> u32
    ensures { ExportsMarks dims.now order.now d.now tol marks.old result told.new marks.new }
{
    let m = marks::marks(dims, order, d, tol, marks);
    tell_marked(m, told)
}

// The number of a solve's outcome, and what it carries.
fn tell_solved(s: Result<(), SolveError>, told: &mut [u64; 3]) -> u32
    ensures { (result ≡ refusal.number (solve.told s)) × (told.new ≡ carried (solve.told s)) }
{
    let number = number_of(&s);
    match s {
        Ok(_) => carry(told, number, 0, 0, 0),
        Err(SolveError::Blocks | SolveError::Stored | SolveError::LValues) => {
            carry(told, number, 0, 0, 0)
        }
        Err(
            SolveError::Dimension { place }
            | SolveError::Starts { place }
            | SolveError::Row { place }
            | SolveError::Order { place }
            | SolveError::Permutation { place }
            | SolveError::Late { place }
            | SolveError::Mismatch { place },
        ) => carry(told, number, place as u64, 0, 0),
        Err(
            SolveError::LStarts { place }
            | SolveError::LRow { place }
            | SolveError::LOrder { place },
        ) => carry(told, number, place as u64, 2, 0),
        Err(SolveError::Parent { block }) => carry(told, number, block as u64, 1, 0),
        Err(SolveError::Short { which, need }) => {
            carry(told, number, which as u64, need as u64, 0)
        }
        Err(SolveError::Missing { column }) => carry(told, number, 8, column as u64, 0),
        Err(SolveError::Extra { column }) => carry(told, number, 8, column as u64, 1),
        Err(SolveError::OtherParent { column }) => carry(told, number, 6, column as u64, 2),
    }
}

// The number of the marks' outcome, and what it carries.
fn tell_marked(m: Result<Tally, MarksError>, told: &mut [u64; 3]) -> u32
    ensures { (result ≡ refusal.number (marks.told m)) × (told.new ≡ carried (marks.told m)) }
{
    let number = number_of(&m);
    match m {
        Ok(c) => carry(told, number, c.silent as u64, 0, 0),
        Err(MarksError::Blocks | MarksError::Tolerance) => carry(told, number, 0, 0, 0),
        Err(
            MarksError::Dimension { place }
            | MarksError::Permutation { place }
            | MarksError::Shape { place },
        ) => carry(told, number, place as u64, 0, 0),
        Err(MarksError::Short { which, need }) => {
            carry(told, number, which as u64, need as u64, 0)
        }
    }
}
