// A sheet read into tables, whatever its bytes are: accepted, or refused in the order of the program `fit`. What the bytes of a sheet
// hold, and the verdict, are in specs/Sheet.antt of sheet_check.
#![tactic(auto)]

ghost use Rattle.std.specs.Prelude.{◌≡◌, ◌≤◌, IfOk};
ghost use Rattle.sheet_check.specs.Checks.{room_blocks, room_stored, room_values, room_scalars};
ghost use Rattle.sheet_check.specs.Outcome.{told, sheet_told};
ghost use Rattle.sheet_unpack.specs.Unpack.{SameTables};
ghost use Rattle.sheet.specs.Reads.{Reads};

use bits::cores::u32_at;
pub use sheet_check::cores::{Night, SheetError};
use sheet_check::cores::{ROOM_BLOCKS, ROOM_STORED};
pub use sheet_unpack::Tables;
use sheet_unpack::cores::{check_tables, keep};

// What the bytes of a sheet say.
pub fn check(bytes: &[u8]) -> Result<Night, SheetError>
    ensures { told result ≡ sheet_told bytes.now }
{
    if bytes.len() < 16 {
        return Err(SheetError::Length);
    }
    let n = u32_at(bytes, 0) as usize;
    if n > ROOM_BLOCKS {
        return Err(SheetError::Room);
    }
    let m = u32_at(bytes, 4) as usize;
    if m > ROOM_STORED {
        return Err(SheetError::Room);
    }
    if bytes.len() < 16 + 12 * n + 12 * m {
        return Err(SheetError::Length);
    }
    check_tables(bytes, n, m)
}

// A sheet read into lists at least as long as the program's room. Accepted, the first places of each hold the sheet's: `dims`, `late` and
// `perm` one for each block, `starts` one more, `rows` one for each stored block of A, `values` the numbers of A's bodies, `right` the
// right side. The places beyond are as they were; under a refusal all are.
pub fn read(bytes: &[u8], o: &mut Tables) -> Result<Night, SheetError>
    ensures reads { Reads bytes.now o.old.dims.now o.old.late.now o.old.perm.now o.old.starts.now o.old.rows.now o.old.values.now o.old.right.now result o.new.dims.now o.new.late.now o.new.perm.now o.new.starts.now o.new.rows.now o.new.values.now o.new.right.now }
    ensures fits { IfOk result (λ night. (night.blocks ≤ room_blocks) × (night.stored ≤ room_stored) × (night.values ≤ room_values) × (night.scalars ≤ room_scalars)) }
    ensures same { SameTables o.old o.new }
{
    let night = check(bytes)?;
    keep(bytes, night, o);
    Ok(night)
}
