// The walk of an elimination tree where the tables are known to be good: a u32 mark advanced by a wrapping add, stamps cleared
// where it returns to 0 or a stamp already holds it, and a climb inside the column scan that is left by a labelled break at a
// mark or a root. What is found is written from the end of the lent buffer backwards, so it is listed last found first.
// Kept: that the parents are a tree, and how long the stamps and the list are, as two facts of the two steps: `scan` is called by `reach_core` and `symbolic::walk` alone, which
// are lent the lists apart, so each would build a struct for this one call.
ghost use Rattle.std.specs.Prelude.{◌≡◌, ℕ, ◌+◌, ◌-◌, ◌<◌, ◌≤◌, ◌++◌, length, take};
ghost use Rattle.reach.specs.Reach.{Parents, mark_of, stamps_of, reached, reach_of};

use tables::cores::NONE;

// The mark that a walk used, and where in the buffer its list begins.
#[derive(Clone, Copy)]
pub struct Mark {
    pub mark: u32,
    pub top: usize,
}

// The next mark: the old one plus one, wrapping. Where that is 0 or a stamp holds it, all stamps become 0 and the mark 1.
pub fn advance(stamp: &mut [u32], mark: u32) -> u32
    ensures value { result ≡ mark_of stamp.old mark }
    ensures stamp_after { stamp.new ≡ stamps_of stamp.old mark }
{
    let next = mark.wrapping_add(1);
    if next == 0 || stamp.contains(&next) {
        stamp.fill(0);
        return 1;
    }
    next
}

// The scan of a column: each row below j starts a climb to the first block that is marked, or past a root.
// `out` has as many places as there are blocks. Returns where its list begins.
pub fn scan(
    parent: &[u32],
    rows: &[u32],
    j: u32,
    mark: u32,
    stamp: &mut [u32],
    out: &mut [u32],
) -> usize
    requires parents { Parents parent.now × (j < length parent.now) }
    requires stamp_len { (length stamp.old ≡ length parent.now) × (length out.old ≡ length parent.now) }
    ensures stamp_value { result + length (reached parent.now mark j rows.now stamp.old).found ≡ length parent.now }
    ensures out_after { out.new ≡ take result out.old ++ (reached parent.now mark j rows.now stamp.old).found }
    ensures stamp_after { stamp.new ≡ (reached parent.now mark j rows.now stamp.old).stamps }
{
    let mut top = out.len();
    for &row in rows {
        let mut i = row;
        if i < j {
            // Kept: it climbs a tree and counts nothing.
            'climb: loop {
                let at = i as usize;
                if stamp[at] == mark {
                    break 'climb;
                }
                top -= 1;
                out[top] = i;
                stamp[at] = mark;
                let up = parent[at];
                if up == NONE {
                    break 'climb;
                }
                i = up;
            }
        }
    }
    top
}

// The walk for block j: the next mark, j marked so that it is not listed itself, and the scan of j's rows.
pub fn reach_core(
    parent: &[u32],
    rows: &[u32],
    j: u32,
    mark: u32,
    stamp: &mut [u32],
    out: &mut [u32],
) -> Mark
    requires parents { Parents parent.now × (j < length parent.now) }
    requires stamp_len { (length stamp.old ≡ length parent.now) × (length out.old ≡ length parent.now) }
    ensures mark_value { (result.mark ≡ mark_of stamp.old mark) × (result.top + length (reach_of parent.now rows.now j stamp.old mark).found ≡ length parent.now) }
    ensures out_after { out.new ≡ take result.top out.old ++ (reach_of parent.now rows.now j stamp.old mark).found }
    ensures stamp_after { stamp.new ≡ (reach_of parent.now rows.now j stamp.old mark).stamps }
{
    let next = advance(stamp, mark);
    stamp[j as usize] = next;
    let top = scan(parent, rows, j, next, stamp, out);
    Mark { mark: next, top }
}
