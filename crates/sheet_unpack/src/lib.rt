// The tables and numbers of a sheet unpacked from its bytes.
#![tactic(auto)]

pub mod cores;

ghost use Rattle.std.specs.Prelude.{◌≤◌, ◌+◌, length};
ghost use Rattle.sheet_check.specs.Checks.{room_blocks, room_stored, room_values, room_scalars};

// Where a sheet that has passed is unpacked, into the first places of each list, which is at least as long as the program's room.
#[derive(Drop)]
pub struct Tables<'a> {
    pub dims: &'a mut [u32],
    pub late: &'a mut [u32],
    pub perm: &'a mut [u32],
    pub starts: &'a mut [u32],
    pub rows: &'a mut [u32],
    pub values: &'a mut [f64],
    pub right: &'a mut [f64],
    ghost long_dims: { room_blocks ≤ length dims.now },
    ghost long_late: { room_blocks ≤ length late.now },
    ghost long_perm: { room_blocks ≤ length perm.now },
    ghost long_starts: { room_blocks + 1 ≤ length starts.now },
    ghost long_rows: { room_stored ≤ length rows.now },
    ghost long_values: { room_values ≤ length values.now },
    ghost long_right: { room_scalars ≤ length right.now },
}
