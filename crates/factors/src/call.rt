// One case of the list: read, called and judged. The list has 44 words in front of each, after its kind: the lengths of the six
// tables from 0 on, those of the 21 lent buffers from 6 on, the tolerance at 27 and 28, the answer from 29 on.
use crate::judge;
use crate::judge::cleared;
use crate::told::says;
use factorize::{Outputs, Scratch, System, factorize};
use word_list::cases::{BadList, Case, kind};
use word_list::entry::float;
use word_list::lent::{all_scratch, scratch, table};
use word_list::room::{BLOCKS, Room, STORED};

// The room for a buffer of floats.
pub const NUMBERS: usize = 40960;

// Reads the next case and judges it; none is the word that ends the list. A list is bad where the input ends early or a case does not fit.
pub fn next() -> Result<Option<Case>, BadList> {
    let Some(kind) = kind()? else {
        return Ok(None);
    };
    let h: [u32; 44] = table(44);
    if !fits(&h) {
        return Err(BadList {});
    }
    Ok(Some(Case::one(kind, read(&h))))
}

// Whether the tables and buffers of a case have room.
fn fits(h: &[u32; 44]) -> bool {
    (0..27usize).all(|k| h[k] as usize <= room_of(k))
}

// The room for table or buffer k: A's rows, L's tables and the scratch of stored blocks are long, and floats have their own.
fn room_of(k: usize) -> usize {
    match k {
        2 | 9 | 10 | 21..=23 => STORED,
        3 | 11..=14 => NUMBERS,
        _ => BLOCKS,
    }
}

// The tables are the next words of the list.
fn read(h: &[u32; 44]) -> bool {
    let dims: Room<u32, BLOCKS> = Room::table(h[0]);
    let starts: Room<u32, BLOCKS> = Room::table(h[1]);
    let rows: Room<u32, STORED> = Room::table(h[2]);
    let values: Room<f64, NUMBERS> = Room::table(h[3]);
    let perm: Room<u32, BLOCKS> = Room::table(h[4]);
    let late: Room<u32, BLOCKS> = Room::table(h[5]);
    let system = System {
        dims: dims.part(),
        starts: starts.part(),
        rows: rows.part(),
        values: values.part(),
        perm: perm.part(),
        late: late.part(),
        tol: float(h[27], h[28]),
    };
    lending(h, &system)
}

// The outputs are marked, and each is lent as long as the list says.
fn lending(h: &[u32; 44], s: &System) -> bool {
    let mut order: Room<u32, BLOCKS> = Room::lent(h[6]);
    let mut parents: Room<u32, BLOCKS> = Room::lent(h[7]);
    let mut l_starts: Room<u32, BLOCKS> = Room::lent(h[8]);
    let mut l_rows: Room<u32, STORED> = Room::lent(h[9]);
    let mut l_offsets: Room<u32, STORED> = Room::lent(h[10]);
    let mut l_values: Room<f64, NUMBERS> = Room::lent(h[11]);
    let mut diag: Room<f64, NUMBERS> = Room::lent(h[12]);
    let mut d: Room<f64, NUMBERS> = Room::lent(h[13]);
    let mut o = Outputs {
        order: order.part_mut(),
        parents: parents.part_mut(),
        l_starts: l_starts.part_mut(),
        l_rows: l_rows.part_mut(),
        l_offsets: l_offsets.part_mut(),
        l_values: l_values.part_mut(),
        diag: diag.part_mut(),
        d: d.part_mut(),
    };
    let told = with_scratch(h, s, &mut o);
    let in_floats = judge::floats(h, &l_values.places, &diag.places, &d.places);
    let in_tables = judge::tables(
        h,
        &order.places,
        &parents.places,
        &l_starts.places,
        &l_rows.places,
        &l_offsets.places,
    );
    told && in_floats && in_tables
}

// The same for the scratch: what is told, and what is left in it.
fn with_scratch(h: &[u32; 44], s: &System, o: &mut Outputs) -> bool {
    let mut column: Room<f64, NUMBERS> = Room::lent(h[14]);
    let mut inverse: Room<u32, BLOCKS> = Room::lent(h[15]);
    let mut sizes: Room<u32, BLOCKS> = Room::lent(h[16]);
    let mut count: Room<u32, BLOCKS> = Room::lent(h[17]);
    let mut heads: Room<u32, BLOCKS> = Room::lent(h[18]);
    let mut into: Room<u32, BLOCKS> = Room::lent(h[19]);
    let mut stamps: Room<u32, BLOCKS> = Room::lent(h[20]);
    let mut table: Room<u32, STORED> = Room::lent(h[21]);
    let mut upper: Room<u32, STORED> = Room::lent(h[22]);
    let mut bodies: Room<u32, STORED> = Room::lent(h[23]);
    let mut unit_starts: Room<u32, BLOCKS> = Room::lent(h[24]);
    let mut d_starts: Room<u32, BLOCKS> = Room::lent(h[25]);
    let mut places: Room<u32, BLOCKS> = Room::lent(h[26]);
    let mut w = Scratch {
        column: column.part_mut(),
        inverse: inverse.part_mut(),
        sizes: sizes.part_mut(),
        count: count.part_mut(),
        heads: heads.part_mut(),
        into: into.part_mut(),
        stamps: stamps.part_mut(),
        table: table.part_mut(),
        upper: upper.part_mut(),
        bodies: bodies.part_mut(),
        unit_starts: unit_starts.part_mut(),
        d_starts: d_starts.part_mut(),
        places: places.part_mut(),
    };
    let told = says(h, &factorize(s, o, &mut w));
    let blocks = cleared(h, h[0] as usize);
    let starts = cleared(h, h[0] as usize + 1);
    let stored = cleared(h, h[2] as usize);
    told && scratch(&column.places, cleared(h, h[42] as usize))
        && all_scratch(
            &[
                &inverse.places,
                &sizes.places,
                &count.places,
                &stamps.places,
                &places.places,
            ],
            blocks,
        )
        && all_scratch(
            &[
                &heads.places,
                &into.places,
                &unit_starts.places,
                &d_starts.places,
            ],
            starts,
        )
        && all_scratch(&[&table.places, &upper.places], stored)
        && scratch(&bodies.places, cleared(h, h[2] as usize + 1))
}
