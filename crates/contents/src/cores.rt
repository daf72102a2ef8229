// The contents of a sheet, once its tables are unpacked. How a search is made:
//   NAME_ok      one place of one table: its test in specs/Contents.antt
//   first_NAME   the first place at which the test fails, if there is one
ghost use Rattle.std.specs.Prelude.{◌≡◌, ℕ, ◌+◌, ◌*◌, ◌<◌, ◌≤◌, length};
ghost use Rattle.tables.specs.Search.{fault};
ghost use Rattle.tables.specs.Verdict.{at};
ghost use Rattle.contents.specs.Contents.{column_fits, before, starts_from, offset_fits, Placed};

use columns::cores::block_area;
use tables::cores::first_fault;

// The column of entry p is below n, and not below the one before it.
pub fn column_ok(columns: &[u32], n: usize, p: usize) -> bool
    requires { p < length columns.now }
    ensures { result ≡ column_fits columns.now n p }
{
    let x = columns[p] as usize;
    if n <= x {
        return false;
    }
    if p == 0 {
        return true;
    }
    columns[p - 1] as usize <= x
}

// 3: the first entry whose column falls or isn't below n.
pub fn first_column(columns: &[u32], n: usize) -> Option<usize>
    ensures { result ≡ fault (column_fits columns.now n) 0 (length columns.now) }
{
    first_fault(0, columns.len(), |p| column_ok(columns, n, p))
}

// The first entry from `from` on whose column is j or more, if there is one.
pub fn column_start(columns: &[u32], j: usize, from: usize) -> Option<usize>
    ensures { result ≡ fault (before columns.now j) from (length columns.now) }
{
    first_fault(from, columns.len(), |p| (columns[p] as usize) < j)
}

// Where each of n columns begins, behind the last the number of entries. Each search goes on where the one before ended.
pub fn make_starts(columns: &[u32], n: usize, starts: &mut [u32])
    requires { (length columns.now < 4294967296) × (length starts.old ≡ n + 1) }
    ensures { starts.new ≡ starts_from columns.now n }
{
    let mut p: usize = 0;
    for (j, start) in starts.iter_mut().enumerate() {
        p = column_start(columns, j, p).unwrap_or(columns.len());
        *start = p as u32;
    }
}

// 15: the first entry whose offset is not where its body lies. The bodies begin at `bodies`, back to back, eight bytes a number.
pub fn first_offset(
    dims: &[u32],
    rows: &[u32],
    columns: &[u32],
    offsets: &[u32],
    bodies: usize,
) -> Option<usize>
    requires { Placed dims.now rows.now columns.now offsets.now × (bodies < 4294967296) }
    ensures { result ≡ fault (offset_fits dims.now rows.now columns.now offsets.now bodies) 0 (length offsets.now) }
{
    let mut sum: usize = 0;
    for (p, &offset) in offsets.iter().enumerate() {
        if offset as usize != bodies + 8 * sum {
            return Some(p);
        }
        let j = columns[p] as usize;
        sum += block_area(dims, rows, dims[j] as usize, p);
    }
    None
}
