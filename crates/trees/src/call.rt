// Calls of the list on the same tables: read, made and judged. A turn has six words in front, after its kind: how many calls there are, and
// the lengths of starts, rows, parents and the two lent buffers. A call has six words too: 1 for a tree or 2 for a walk, the
// blocks or the block, the mark, and what is told; then the lent buffers afterwards.
use crate::told::says;
use word_list::cases::{BadList, Case, kind};
use word_list::lent::{listed, table};
use word_list::room::{BLOCKS, Room};
use word_list::tally::Count;

// What a call asks for.
#[derive(Clone, Copy)]
enum Asked {
    Tree,
    Walk,
}

// Kept: the list's number of a call, which becomes the enum here.
impl From<u32> for Asked {
    fn from(word: u32) -> Asked {
        match word {
            1 => Asked::Tree,
            _ => Asked::Walk,
        }
    }
}

// Reads the next turn and judges its calls; none is the word that ends the list.
pub fn next() -> Result<Option<Case>, BadList> {
    let Some(kind) = kind()? else {
        return Ok(None);
    };
    let h: [u32; 6] = table(6);
    let right = called(&h);
    let cases = h[0] as usize;
    Ok(Some(Case {
        kind,
        count: Count { cases, right },
    }))
}

// The tables and buffers, then the calls: how many come out as listed.
fn called(h: &[u32; 6]) -> usize {
    let starts: Room<u32, BLOCKS> = Room::table(h[1]);
    let rows: Room<u32, BLOCKS> = Room::table(h[2]);
    let parents: Room<u32, BLOCKS> = Room::table(h[3]);
    let mut a: Room<u32, BLOCKS> = Room::table(h[4]);
    let mut b: Room<u32, BLOCKS> = Room::table(h[5]);
    calls(
        h[0],
        starts.part(),
        rows.part(),
        parents.part(),
        a.part_mut(),
        b.part_mut(),
    )
}

// So many calls, each with the buffers as the one before left them.
fn calls(
    count: u32,
    starts: &[u32],
    rows: &[u32],
    parents: &[u32],
    a: &mut [u32],
    b: &mut [u32],
) -> usize {
    let mut same: usize = 0;
    for _ in 0..count {
        if one(starts, rows, parents, a, b) {
            same = same.saturating_add(1);
        }
    }
    same
}

// One call: whether it tells what the list says, and leaves the buffers as the list has them.
fn one(starts: &[u32], rows: &[u32], parents: &[u32], a: &mut [u32], b: &mut [u32]) -> bool {
    let w: [u32; 6] = table(6);
    let told = call(&w, starts, rows, parents, a, b);
    let first = listed(a, a.len());
    let second = listed(b, b.len());
    told && first && second
}

// Whether the call tells what its words say.
fn call(
    w: &[u32; 6],
    starts: &[u32],
    rows: &[u32],
    parents: &[u32],
    a: &mut [u32],
    b: &mut [u32],
) -> bool {
    let at = w[1] as usize;
    match Asked::from(w[0]) {
        Asked::Tree => {
            let grown = elimination_tree::new(at, starts, rows, a, b);
            says(w, &grown, (0, 0))
        }
        Asked::Walk => {
            let walked = reach::reach(starts, rows, parents, at, w[2], a, b);
            // accepted, the mark that the walk used and where its list begins
            let found = walked.map_or((0, 0), |m| (m.mark as usize, m.top));
            says(w, &walked, found)
        }
    }
}
