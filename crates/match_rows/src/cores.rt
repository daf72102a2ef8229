// The columns of a factor against A's links, where the tables are known to be of good shape. Column k of L has its linked rows and
// the rows past k of its children, the columns whose first row is k. So four passes tell what is wrong, each over the factor's own
// columns, right or not:
//   first_unlinked   the lowest column that lacks a linked row; first_unpassed, a row of a child
//   first_stray      the lowest column that lists a row which is neither
//   first_off        the lowest column whose parent is not its first row
// Before the lowest of the four all columns are right.
// Kept: the starts and the rows of L as two lists: the passes and their laws (`ColumnRises l_starts l_rows k`) are about any columns, and of a factor, which `solve_match` is lent, they would
// read two of its eight lists and `find_row` and `lower_bound` of `load_column` would be handed them apart.
// Kept: what the passes compare is one record, `Compared`, and that a column ascends is another, `ColumnRises`. `linked` and `lowest_unlinked` ask for less.
ghost use Rattle.std.specs.Prelude.{◌≡◌, ℕ, ◌+◌, ◌<◌, ◌≤◌, ◌||◌, length, replicate, ◌==◌, nat_lt, slice_get};
ghost use Rattle.graph.specs.Sets.{elem, gather};
ghost use Rattle.graph.specs.Links.{rows_in, linked_in};
ghost use Rattle.graph.specs.Order.{Permutes};
ghost use Rattle.tables.specs.Search.{first, fault};
ghost use Rattle.tables.specs.Verdict.{at, from_diagonal, past_diagonal};
ghost use Rattle.tables.specs.Sound.{Columns};
ghost use Rattle.order.specs.Order.{Inverse};
ghost use Rattle.load_column.specs.Blocks.{ColumnRises};
ghost use Rattle.match_rows.specs.Rows.{Compared, children, passed_on, lowered, lowered_by, given_in, headed, LowestOf, stamps, column_given, Families};

use load_column::cores::{find_row, lower_bound};
use order::cores::invert;
use tables::cores::{NONE, first_fault};

// A's links, under an order of elimination.
#[derive(Clone, Copy, Drop)]
pub struct Links<'a> {
    // A's pattern, by old number.
    pub starts: &'a [u32],
    pub rows: &'a [u32],
    // The permutation after the late move.
    pub order: &'a [u32],
}

// The children of each column in a list, in two tables, since there is no heap: the first of column k, and the next of each, each its number plus one; 0 ends a list.
#[derive(Clone, Copy, Drop)]
pub struct Family<'a> {
    pub head: &'a [u32; 4096],
    pub sibling: &'a [u32; 4096],
}

// ---- one row

// The first place of a column whose row is not below `row`; the end of the column where there is none. Those before `from` are known to
// be below: one comparison where it is `from`, else by halving.
pub fn place_from(starts: &[u32], rows: &[u32], row: usize, column: usize, from: usize) -> usize
    requires column_rises { ColumnRises starts.now rows.now column }
    requires column_bound { (at starts.now column ≤ from) × (from ≤ at starts.now (column + 1)) × ((p : ℕ) → at starts.now column ≤ p → p < from → at rows.now p < row) }
    ensures { result ≡ first (λ p. nat_lt (at rows.now p) row) (at starts.now column) (at starts.now (column + 1)) }
{
    let end = starts[column + 1] as usize;
    if end <= from || row <= rows[from] as usize {
        return from;
    }
    lower_bound(rows, from + 1, end, row)
}

// Is `row` among the rows of a column?
pub fn holds(starts: &[u32], rows: &[u32], row: usize, column: usize) -> bool
    requires { ColumnRises starts.now rows.now column }
    ensures { result ≡ elem row (rows_in starts.now rows.now column) }
{
    find_row(starts, rows, row, column).is_some()
}

// Does A link the new blocks i and k?
pub fn linked(links: &Links, i: usize, k: usize) -> bool
    requires columns { Columns from_diagonal (length links.now.order.now) links.now.starts.now links.now.rows.now × Permutes (length links.now.order.now) links.now.order.now }
    requires i_in_bounds { (i < length links.now.order.now) × (k < length links.now.order.now) }
    ensures { result ≡ linked_in links.now.starts.now links.now.rows.now links.now.order.now i k }
{
    if i == k {
        return false;
    }
    let p = links.order[i] as usize;
    let q = links.order[k] as usize;
    if p < q {
        return holds(links.starts, links.rows, q, p);
    }
    holds(links.starts, links.rows, p, q)
}

// ---- a row is missing

// k where it is below `least` and column k does not list row i, else `least`.
// Kept: `least` is the bound below which a column is still looked for, and n the first such bound: as an `Option` it would be opened at each stored block to be compared.
pub fn lower(l_starts: &[u32], l_rows: &[u32], i: usize, k: usize, least: usize) -> usize
    requires { ColumnRises l_starts.now l_rows.now k }
    ensures { result ≡ lowered (rows_in l_starts.now l_rows.now) i k least }
{
    if k < least {
        if !holds(l_starts, l_rows, i, k) {
            return k;
        }
    }
    least
}

// The same for the two new numbers of A's stored block (row, column), which is no pair where it is on the diagonal.
pub fn lower_by(
    inverse: &[u32],
    l_starts: &[u32],
    l_rows: &[u32],
    row: usize,
    column: usize,
    least: usize,
) -> usize
    requires row_in_bounds { (row < length inverse.now) × (column < length inverse.now) }
    requires by_index { (o : ℕ) → o < length inverse.now → ColumnRises l_starts.now l_rows.now (at inverse.now o) }
    ensures { result ≡ lowered_by inverse.now (rows_in l_starts.now l_rows.now) row column least }
{
    if row == column {
        return least;
    }
    let p = inverse[row] as usize;
    let q = inverse[column] as usize;
    if p < q {
        return lower(l_starts, l_rows, q, p, least);
    }
    lower(l_starts, l_rows, p, q, least)
}

// The lowest column that lacks a linked row, if one does, under the inverse of the order: a pass over A's stored blocks.
pub fn lowest_unlinked(
    links: &Links,
    inverse: &[u32],
    l_starts: &[u32],
    l_rows: &[u32],
) -> Option<usize>
    requires columns { Columns from_diagonal (length links.now.order.now) links.now.starts.now links.now.rows.now × Inverse (length links.now.order.now) links.now.order.now inverse.now }
    requires columns_2 { Columns past_diagonal (length links.now.order.now) l_starts.now l_rows.now }
    ensures { LowestOf (linked_in links.now.starts.now links.now.rows.now links.now.order.now) (rows_in l_starts.now l_rows.now) (length links.now.order.now) result }
{
    let n = links.order.len();
    let mut least = n;
    for c in 0..n {
        let end = links.starts[c + 1] as usize;
        for u in links.starts[c] as usize..end {
            least = lower_by(inverse, l_starts, l_rows, links.rows[u] as usize, c, least);
        }
    }
    (least < n).then_some(least)
}

// The lowest column that lacks a linked row, if one does.
pub fn first_unlinked(links: &Links, l_starts: &[u32], l_rows: &[u32]) -> Option<usize>
    requires compared { Compared links.now.starts.now links.now.rows.now links.now.order.now l_starts.now l_rows.now }
    ensures { LowestOf (linked_in links.now.starts.now links.now.rows.now links.now.order.now) (rows_in l_starts.now l_rows.now) (length links.now.order.now) result }
{
    let mut inverse = [0u32; 4096];
    let n = links.order.len();
    invert(links.order, &mut inverse[..n]);
    lowest_unlinked(links, &inverse[..n], l_starts, l_rows)
}

// The first place of column c, behind its first, whose row column k does not list, if there is one. Both ascend: a walk of the two
// side by side. A row that is not the next of column k is sought behind it.
pub fn unpassed_in(l_starts: &[u32], l_rows: &[u32], c: usize, k: usize) -> Option<usize>
    requires { ColumnRises l_starts.now l_rows.now c × ColumnRises l_starts.now l_rows.now k × (at l_starts.now c < at l_starts.now (c + 1)) }
    ensures { result ≡ fault (λ u. elem (at l_rows.now u) (rows_in l_starts.now l_rows.now k)) (at l_starts.now c + 1) (at l_starts.now (c + 1)) }
{
    let end = l_starts[c + 1] as usize;
    let last = l_starts[k + 1] as usize;
    let mut place = l_starts[k] as usize;
    for u in l_starts[c] as usize + 1..end {
        if last <= place {
            return Some(u);
        }
        let row = l_rows[u] as usize;
        if l_rows[place] as usize != row {
            place = place_from(l_starts, l_rows, row, k, place);
            if last <= place {
                return Some(u);
            }
            if row < l_rows[place] as usize {
                return Some(u);
            }
        }
        place += 1;
    }
    None
}

// The lowest of n columns that lacks a row of a child, if one does. The first row of a column is its parent: the others, which are
// greater, are the parent's as well.
// Kept: `least` is a bound, as in `lower`, where a line says why it is no `Option`.
pub fn first_unpassed(l_starts: &[u32], l_rows: &[u32], n: usize) -> Option<usize>
    requires { Columns past_diagonal n l_starts.now l_rows.now }
    ensures { LowestOf (passed_on (rows_in l_starts.now l_rows.now) n) (rows_in l_starts.now l_rows.now) n result }
{
    let mut least = n;
    for c in 0..n {
        let from = l_starts[c] as usize;
        let end = l_starts[c + 1] as usize;
        if from < end {
            let parent = l_rows[from] as usize;
            if parent < least {
                if unpassed_in(l_starts, l_rows, c, parent).is_some() {
                    least = parent;
                }
            }
        }
    }
    (least < n).then_some(least)
}

// ---- a row is one too many

// The child lists of n columns.
pub fn link_children(
    l_starts: &[u32],
    l_rows: &[u32],
    n: usize,
    head: &mut [u32; 4096],
    sibling: &mut [u32; 4096],
)
    requires n_bound { (n ≤ 4096) × Columns past_diagonal n l_starts.now l_rows.now }
    requires head_value { (head.old ≡ replicate 4096 0) × (length sibling.old ≡ 4096) }
    ensures { Families (rows_in l_starts.now l_rows.now) n head.new sibling.new }
{
    for c in 0..n {
        let from = l_starts[c] as usize;
        let end = l_starts[c + 1] as usize;
        if from < end {
            let k = l_rows[from] as usize;
            sibling[c] = head[k];
            head[k] = (c + 1) as u32;
        }
    }
}

// The stamp v at each row of column c.
pub fn stamp_rows(l_starts: &[u32], l_rows: &[u32], c: usize, v: u32, seen: &mut [u32; 4096])
    requires { ColumnRises l_starts.now l_rows.now c × ((p : ℕ) → p < length l_rows.now → at l_rows.now p < 4096) × (length seen.old ≡ 4096) }
    ensures { seen.new ≡ stamps v (rows_in l_starts.now l_rows.now c) seen.old }
{
    let end = l_starts[c + 1] as usize;
    for u in l_starts[c] as usize..end {
        let i = l_rows[u] as usize;
        seen[i] = v;
    }
}

// The stamp v at each row of each child of k.
pub fn stamp_children(
    l_starts: &[u32],
    l_rows: &[u32],
    n: usize,
    family: &Family,
    k: usize,
    v: u32,
    seen: &mut [u32; 4096],
)
    requires n_bound { (n ≤ 4096) × Columns past_diagonal n l_starts.now l_rows.now }
    requires k_lt_n { (k < n) × Families (rows_in l_starts.now l_rows.now) n family.now.head.now family.now.sibling.now × (length seen.old ≡ 4096) }
    ensures { seen.new ≡ stamps v (gather (rows_in l_starts.now l_rows.now) (children (rows_in l_starts.now l_rows.now) k n)) seen.old }
{
    let mut x = family.head[k] as usize;
    // Kept: a walk down a list of children. There is no heap, so the lists are two tables of links, in which 0 is the end.
    while x > 0 {
        let c = x - 1;
        stamp_rows(l_starts, l_rows, c, v, seen);
        x = family.sibling[c] as usize;
    }
}

// The row at place u of column k is stamped or linked.
pub fn row_given(
    links: &Links,
    l_rows: &[u32],
    seen: &[u32; 4096],
    k: usize,
    v: u32,
    u: usize,
) -> bool
    requires columns { Columns from_diagonal (length links.now.order.now) links.now.starts.now links.now.rows.now × Permutes (length links.now.order.now) links.now.order.now }
    requires order_len_bound { (length links.now.order.now ≤ 4096) × (k < length links.now.order.now) × (u < length l_rows.now) × (at l_rows.now u < length links.now.order.now) × (length seen.now ≡ 4096) }
    ensures { result ≡ (at seen.now (at l_rows.now u) == v || linked_in links.now.starts.now links.now.rows.now links.now.order.now (at l_rows.now u) k) }
{
    let i = l_rows[u] as usize;
    if seen[i] == v {
        return true;
    }
    linked(links, i, k)
}

// The first place of column k whose row is neither stamped nor linked, if there is one.
pub fn stray_in(
    links: &Links,
    l_starts: &[u32],
    l_rows: &[u32],
    seen: &[u32; 4096],
    k: usize,
    v: u32,
) -> Option<usize>
    requires compared { Compared links.now.starts.now links.now.rows.now links.now.order.now l_starts.now l_rows.now }
    requires k_in_bounds { (k < length links.now.order.now) × (length seen.now ≡ 4096) }
    ensures { result ≡ fault (λ u. (at seen.now (at l_rows.now u) == v) || linked_in links.now.starts.now links.now.rows.now links.now.order.now (at l_rows.now u) k) (at l_starts.now k) (at l_starts.now (k + 1)) }
{
    first_fault(
        l_starts[k] as usize,
        l_starts[k + 1] as usize,
        |u|
            requires { Columns from_diagonal (length links.now.order.now) links.now.starts.now links.now.rows.now × Permutes (length links.now.order.now) links.now.order.now × (length links.now.order.now ≤ 4096) × (k < length links.now.order.now) × (u < length l_rows.now) × (at l_rows.now u < length links.now.order.now) × (length seen.now ≡ 4096) }
        { row_given(links, l_rows, seen, k, v, u) },
    )
}

// Is each row that column k lists linked, or a row of a child? `seen` holds the stamps of the columns before, each its number plus one.
pub fn column_given(
    links: &Links,
    l_starts: &[u32],
    l_rows: &[u32],
    family: &Family,
    k: usize,
    seen: &mut [u32; 4096],
) -> bool
    requires compared { Compared links.now.starts.now links.now.rows.now links.now.order.now l_starts.now l_rows.now }
    requires k_in_bounds { k < length links.now.order.now }
    requires families { Families (rows_in l_starts.now l_rows.now) (length links.now.order.now) family.now.head.now family.now.sibling.now × (length seen.old ≡ 4096) × ((i : ℕ) → i < 4096 → at seen.old i ≤ k) }
    ensures value { result ≡ column_given (given_in links.now.starts.now links.now.rows.now links.now.order.now l_starts.now l_rows.now) l_starts.now l_rows.now k }
    ensures seen_len { (length seen.new ≡ 4096) × ((i : ℕ) → i < 4096 → at seen.new i ≤ k + 1) }
{
    let v = (k + 1) as u32;
    stamp_children(l_starts, l_rows, links.order.len(), family, k, v, seen);
    stray_in(links, l_starts, l_rows, seen, k, v).is_none()
}

// The lowest column that lists a row that it is not given, if one does.
pub fn first_stray(links: &Links, l_starts: &[u32], l_rows: &[u32]) -> Option<usize>
    requires compared { Compared links.now.starts.now links.now.rows.now links.now.order.now l_starts.now l_rows.now }
    ensures { result ≡ fault (column_given (given_in links.now.starts.now links.now.rows.now links.now.order.now l_starts.now l_rows.now) l_starts.now l_rows.now) 0 (length links.now.order.now) }
{
    let mut head = [0u32; 4096];
    let mut sibling = [0u32; 4096];
    let mut seen = [0u32; 4096];
    link_children(l_starts, l_rows, links.order.len(), &mut head, &mut sibling);
    let family = Family {
        head: &head,
        sibling: &sibling,
    };
    for k in 0..links.order.len() {
        if !column_given(links, l_starts, l_rows, &family, k, &mut seen) {
            return Some(k);
        }
    }
    None
}

// ---- a parent is off

// The first row of column k, if it has one.
pub fn first_row(l_starts: &[u32], l_rows: &[u32], k: usize) -> Option<u32>
    requires { ColumnRises l_starts.now l_rows.now k }
    ensures { result ≡ slice_get (rows_in l_starts.now l_rows.now k) 0 }
{
    let from = l_starts[k] as usize;
    if from < l_starts[k + 1] as usize {
        return Some(l_rows[from]);
    }
    None
}

// The parent of k is its first row, or none.
pub fn parent_ok(parents: &[u32], l_starts: &[u32], l_rows: &[u32], k: usize) -> bool
    requires { (k < length parents.now) × ColumnRises l_starts.now l_rows.now k }
    ensures { result ≡ headed parents.now (rows_in l_starts.now l_rows.now) k }
{
    parents[k] == first_row(l_starts, l_rows, k).unwrap_or(NONE)
}

// The lowest column whose parent is not its first row, if there is one.
pub fn first_off(parents: &[u32], l_starts: &[u32], l_rows: &[u32]) -> Option<usize>
    requires { Columns past_diagonal (length parents.now) l_starts.now l_rows.now }
    ensures { result ≡ fault (headed parents.now (rows_in l_starts.now l_rows.now)) 0 (length parents.now) }
{
    first_fault(
        0,
        parents.len(),
        |k|
            requires { (k < length parents.now) × ColumnRises l_starts.now l_rows.now k }
        { parent_ok(parents, l_starts, l_rows, k) },
    )
}
