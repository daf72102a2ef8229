// The tables of a sheet unpacked from its bytes, once its head has passed: to be checked, and to be kept.
// Kept: what the head of a sheet has shown is one named record, `Headed`, of the bytes and of the two counts that were read from them.
ghost use Rattle.std.specs.Prelude.{◌≡◌, ℕ, length};
ghost use Rattle.sheet_bytes.specs.Layout.{dims_of, late_of, perm_of};
ghost use Rattle.sheet_check.specs.Outcome.{told};
ghost use Rattle.sheet_check.specs.Sheet.{rows_of, columns_of};
ghost use Rattle.sheet_unpack.specs.Unpack.{Headed, Kept, SameTables, Unpacks, tables_told};

use crate::Tables;
use bits::cores::f64_at;
use contents::cores::make_starts;
use sheet_bytes::cores::{read_f64s, read_u32s};
use sheet_check::cores as checks;
use sheet_check::cores::{Night, ROOM_BLOCKS, ROOM_STORED, SheetError, by_table};

// The dimensions, late flags and permutation, into lists of as many places as there are blocks.
fn unpack_blocks(bytes: &[u8], dims: &mut [u32], late: &mut [u32], perm: &mut [u32])
    requires headed { (m : ℕ) × Headed bytes.now (length dims.old) m }
    requires room { (length late.old ≡ length dims.old) × (length perm.old ≡ length dims.old) }
    ensures in_dims { dims.new ≡ dims_of bytes.now }
    ensures in_late { late.new ≡ late_of bytes.now }
    ensures in_perm { perm.new ≡ perm_of bytes.now }
{
    let n = dims.len();
    read_u32s(bytes, 16, 8, dims);
    read_u32s(bytes, 20, 8, late);
    read_u32s(bytes, 16 + 8 * n, 4, perm);
}

// The rows and columns of the stored blocks, behind the tables of n blocks, into lists of as many places as there are.
fn unpack_stored(bytes: &[u8], n: usize, rows: &mut [u32], columns: &mut [u32])
    requires headed { Headed bytes.now n (length rows.old) }
    requires room { length columns.old ≡ length rows.old }
    ensures in_rows { rows.new ≡ rows_of bytes.now }
    ensures in_columns { columns.new ≡ columns_of bytes.now }
{
    let contents = 16 + 12 * n;
    read_u32s(bytes, contents, 12, rows);
    read_u32s(bytes, contents + 4, 12, columns);
}

// What the tables of n blocks and m stored ones say. They are unpacked into arrays of the program's room, so that a refusal finds
// every lent table as it was.
pub fn check_tables(bytes: &[u8], n: usize, m: usize) -> Result<Night, SheetError>
    requires { Headed bytes.now n m }
    ensures { told result ≡ tables_told bytes.now }
{
    let mut dims = [0u32; ROOM_BLOCKS];
    let mut late = [0u32; ROOM_BLOCKS];
    let mut perm = [0u32; ROOM_BLOCKS];
    let mut starts = [0u32; ROOM_BLOCKS + 1];
    let mut rows = [0u32; ROOM_STORED];
    let mut columns = [0u32; ROOM_STORED];
    let mut offsets = [0u32; ROOM_STORED];
    unpack_blocks(bytes, &mut dims[..n], &mut late[..n], &mut perm[..n]);
    unpack_stored(bytes, n, &mut rows[..m], &mut columns[..m]);
    let contents = 16 + 12 * n;
    read_u32s(bytes, contents + 8, 12, &mut offsets[..m]);
    let tables = checks::Tables {
        dims: &dims[..n],
        late: &late[..n],
        perm: &perm[..n],
        rows: &rows[..m],
        columns: &columns[..m],
        offsets: &offsets[..m],
        tol: f64_at(bytes, 8),
        bodies: contents + 12 * m,
        size: bytes.len(),
    };
    by_table(&tables, &mut starts[..n + 1])
}

// The tables and numbers of a sheet that has passed, into the first places of what is lent.
pub fn keep(bytes: &[u8], night: Night, o: &mut Tables)
    requires { Kept bytes.now night }
    ensures unpacks { Unpacks bytes.now o.old.dims.now o.old.late.now o.old.perm.now o.old.starts.now o.old.rows.now o.old.values.now o.old.right.now o.new.dims.now o.new.late.now o.new.perm.now o.new.starts.now o.new.rows.now o.new.values.now o.new.right.now }
    ensures same { SameTables o.old o.new }
{
    let n = night.blocks;
    let m = night.stored;
    let count = night.values;
    let scalars = night.scalars;
    let dims = &mut *o.dims;
    let late = &mut *o.late;
    let perm = &mut *o.perm;
    let starts = &mut *o.starts;
    let rows = &mut *o.rows;
    let values = &mut *o.values;
    let right = &mut *o.right;
    let mut columns = [0u32; ROOM_STORED];
    unpack_blocks(bytes, &mut dims[..n], &mut late[..n], &mut perm[..n]);
    unpack_stored(bytes, n, &mut rows[..m], &mut columns[..m]);
    make_starts(&columns[..m], n, &mut starts[..n + 1]);
    let bodies = 16 + 12 * n + 12 * m;
    read_f64s(bytes, bodies, &mut values[..count]);
    read_f64s(bytes, bodies + 8 * count, &mut right[..scalars]);
}
