// One case of the list: read, called and judged. The list has 26 words in front of each, after its kind: the lengths of the five
// tables from 0 on, those of the twelve lent buffers from 5 on, the answer from 17 on.
ghost use Rattle.std.specs.Prelude.{◌≡◌, ◌≤◌, length};

use crate::told::{says_plan, says_system};
use plan::{Night, Outputs, Scratch};
use word_list::cases::{BadList, Case, kind};
use word_list::entry::float;
use word_list::lent::{all_scratch, output, table};
use word_list::room::{BLOCKS, Room, STORED, held};

// The room for a table of L's blocks, and for values.
const L_ROWS: usize = 131072;

const VALUES: usize = 4096;

// What the cases of a kind call.
#[derive(Clone, Copy)]
enum Call {
    Plan,
    System,
}

// The last kind checks a system.
// Kept: the list's number of a kind, which becomes the enum here.
impl From<usize> for Call {
    fn from(kind: usize) -> Call {
        match kind {
            14 => Call::System,
            _ => Call::Plan,
        }
    }
}

// Reads the next case and judges it; none is the word that ends the list. A list is bad where the input ends early or a case does not fit.
pub fn next() -> Result<Option<Case>, BadList> {
    let Some(kind) = kind()? else {
        return Ok(None);
    };
    let h: [u32; 26] = table(26);
    let call = Call::from(kind);
    if !fits(call, &h) {
        return Err(BadList {});
    }
    let is_right = match call {
        Call::Plan => planned(&h),
        Call::System => system(&h),
    };
    Ok(Some(Case::one(kind, is_right)))
}

// Whether the tables and buffers of a case have room.
fn fits(call: Call, h: &[u32; 26]) -> bool {
    (0..lengths(call)).all(|k| h[k] as usize <= room(k))
}

// How many of the words in front are lengths.
fn lengths(call: Call) -> usize
    ensures { result ≤ 17 }
{
    match call {
        Call::Plan => 17,
        Call::System => 5,
    }
}

// The room for table or buffer k: rows, table and upper are as long as the stored blocks, l_rows as L's.
fn room(k: usize) -> usize {
    match k {
        2 | 15 | 16 => STORED,
        8 => L_ROWS,
        _ => BLOCKS,
    }
}

// A plan: its tables are the next words of the list.
fn planned(h: &[u32; 26]) -> bool {
    let dims: Room<u32, BLOCKS> = Room::table(h[0]);
    let starts: Room<u32, BLOCKS> = Room::table(h[1]);
    let rows: Room<u32, STORED> = Room::table(h[2]);
    let perm: Room<u32, BLOCKS> = Room::table(h[3]);
    let late: Room<u32, BLOCKS> = Room::table(h[4]);
    let night = Night {
        dims: dims.part(),
        starts: starts.part(),
        rows: rows.part(),
        perm: perm.part(),
        late: late.part(),
    };
    lending(h, &night)
}

// Its buffers are marked, and each is lent as long as the list says.
fn lending(h: &[u32; 26], a: &Night) -> bool {
    let mut order: Room<u32, BLOCKS> = Room::lent(h[5]);
    let mut parents: Room<u32, BLOCKS> = Room::lent(h[6]);
    let mut l_starts: Room<u32, BLOCKS> = Room::lent(h[7]);
    let mut l_rows: Room<u32, L_ROWS> = Room::lent(h[8]);
    let mut inverse: Room<u32, BLOCKS> = Room::lent(h[9]);
    let mut sizes: Room<u32, BLOCKS> = Room::lent(h[10]);
    let mut count: Room<u32, BLOCKS> = Room::lent(h[11]);
    let mut heads: Room<u32, BLOCKS> = Room::lent(h[12]);
    let mut into: Room<u32, BLOCKS> = Room::lent(h[13]);
    let mut stamps: Room<u32, BLOCKS> = Room::lent(h[14]);
    let mut table: Room<u32, STORED> = Room::lent(h[15]);
    let mut upper: Room<u32, STORED> = Room::lent(h[16]);
    let mut o = Outputs {
        order: order.part_mut(),
        parents: parents.part_mut(),
        l_starts: l_starts.part_mut(),
        l_rows: l_rows.part_mut(),
    };
    let mut w = Scratch {
        inverse: inverse.part_mut(),
        sizes: sizes.part_mut(),
        count: count.part_mut(),
        heads: heads.part_mut(),
        into: into.part_mut(),
        stamps: stamps.part_mut(),
        table: table.part_mut(),
        upper: upper.part_mut(),
    };
    let p = plan::plan(a, &mut o, &mut w);
    let answered = says_plan(h, &p);
    let written = outputs(
        h,
        &order.places,
        &parents.places,
        &l_starts.places,
        &l_rows.places,
    );
    let blocks = cleared(h, h[0] as usize);
    let starts = cleared(h, h[0] as usize + 1);
    let stored = cleared(h, h[2] as usize);
    answered
        && written
        && all_scratch(
            &[
                &inverse.places,
                &sizes.places,
                &count.places,
                &stamps.places,
            ],
            blocks,
        )
        && all_scratch(&[&heads.places, &into.places], starts)
        && all_scratch(&[&table.places, &upper.places], stored)
}

// Whether the outputs hold what the list says, and beyond it their marks: all of them where it says nothing.
fn outputs(
    h: &[u32; 26],
    order: &[u32; BLOCKS],
    parents: &[u32; BLOCKS],
    l_starts: &[u32; BLOCKS],
    l_rows: &[u32; L_ROWS],
) -> bool {
    let starts = h[25] as usize;
    let blocks = if starts == 0 { 0 } else { h[0] as usize };
    let a = output(order, blocks);
    let b = output(parents, blocks);
    let c = output(l_starts, starts);
    let d = output(l_rows, h[21] as usize);
    a && b && c && d
}

// How many places of a scratch buffer end as 0: its need where the list says so, else none.
// Kept: `factors` has it too, by another word of its list.
fn cleared(h: &[u32; 26], need: usize) -> usize {
    if h[20] == 1 { need } else { 0 }
}

// A check of a system: the count of values at 5, the tolerance at 6 and 7.
fn system(h: &[u32; 26]) -> bool {
    let dims: Room<u32, BLOCKS> = Room::table(h[0]);
    let starts: Room<u32, BLOCKS> = Room::table(h[1]);
    let rows: Room<u32, BLOCKS> = Room::table(h[2]);
    let perm: Room<u32, BLOCKS> = Room::table(h[3]);
    let late: Room<u32, BLOCKS> = Room::table(h[4]);
    let values = [0.0; VALUES];
    let tolerance = float(h[6], h[7]);
    let s = checks::check_system(
        dims.part(),
        starts.part(),
        rows.part(),
        &values[..held(h[5], VALUES)],
        perm.part(),
        late.part(),
        tolerance,
    );
    says_system(h, &s)
}
