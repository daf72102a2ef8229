// The searches over the row table, whose columns the starts give, that the checks of tables are made of. How one is made:
//   NAME_ok      one place: its test in `Verdict` of tables
//   first_NAME   the first place at which the test of its column fails, if there is one
// Kept: `n ≤ 4096` and `p < length rows` are each about a number that the search around counts, or a length, and `Sizes dims` is one named record: a type for any of them would be
// built at each turn of a search, or around one list.
// Kept: the starts and the rows as two lists: A's, a factor's and an upper pattern's are lent in three different structs, or apart, so each caller would build a struct of the two for
// one call.
ghost use Rattle.std.specs.Prelude.{◌≡◌, ℕ, Bool, Option, ◌+◌, ◌<◌, ◌≤◌, length};
ghost use Rattle.tables.specs.Search.{fault, sum};
ghost use Rattle.tables.specs.Verdict.{at, column_of, row_ok, row_fits, order_ok, order_fits, block_area, areas};
ghost use Rattle.tables.specs.Sound.{Sizes, Ordered, Measured};
ghost use Rattle.columns.specs.Least.{least_row};

use tables::cores::first_fault;

// What the least row of column j is: j in A, j + 1 in a factor, 0 in an upper pattern.
#[derive(Clone, Copy)]
pub enum Least {
    Diagonal,
    PastDiagonal,
    Any,
}

// The least row that column j may store.
pub fn least_row(least: Least, j: usize) -> usize
    requires { j < 4096 }
    ensures { result ≡ least_row least j }
{
    match least {
        Least::Diagonal => j,
        Least::PastDiagonal => j + 1,
        Least::Any => 0,
    }
}

// The row at place p is in from..n.
#[tactic(auto, unfolding(tables::specs::Verdict::row_ok))]
pub fn row_ok(rows: &[u32], n: usize, from: usize, p: usize) -> bool
    requires { p < length rows.now }
    ensures { result ≡ row_ok rows.now n from p }
{
    let x = rows[p] as usize;
    from <= x && x < n
}

// The first place in the columns at which the test of its column fails: the search of one column is told the column, its start and its end.
pub fn first_in_columns<P: Fn(usize, usize, usize) -> Option<usize>>(
    starts: &[u32],
    n: usize,
    first: P,
) -> Option<usize>
    requires entries { length starts.now ≡ n + 1 }
    requires asks { (j : ℕ) → j < n → P.pre first j (at starts.now j) (at starts.now (j + 1)) }
    ensures { (m : ℕ) (test : ℕ → ℕ → Bool) → Ordered starts.now n m → ((j : ℕ) (r : Option ℕ) → j < n → P.post first j (at starts.now j) (at starts.now (j + 1)) r → r ≡ fault (test j) (at starts.now j) (at starts.now (j + 1))) → result ≡ fault (λ p. test (column_of starts.now n p) p) 0 m }
{
    for j in 0..n {
        let found = first(j, starts[j] as usize, starts[j + 1] as usize);
        if found.is_some() {
            return found;
        }
    }
    None
}

// 5: the first place whose row is out of the range of its column.
pub fn first_row(starts: &[u32], rows: &[u32], n: usize, least: Least) -> Option<usize>
    requires { (n ≤ 4096) × Ordered starts.now n (length rows.now) }
    ensures { result ≡ fault (row_fits (least_row least) starts.now rows.now n) 0 (length rows.now) }
{
    first_in_columns(starts, n, |j, lo, hi| {
        let from = least_row(least, j);
        first_fault(lo, hi, |p| row_ok(rows, n, from, p))
    })
}

// The row at place p is the first of its column, which starts at lo, or above the one before.
#[tactic(auto, unfolding(tables::specs::Verdict::order_ok))]
pub fn order_ok(rows: &[u32], lo: usize, p: usize) -> bool
    requires { p < length rows.now }
    ensures { result ≡ order_ok rows.now lo p }
{
    p <= lo || rows[p - 1] < rows[p]
}

// 6: the first place whose row is not above the one before it in its column.
pub fn first_fall(starts: &[u32], rows: &[u32], n: usize) -> Option<usize>
    requires { Ordered starts.now n (length rows.now) }
    ensures { result ≡ fault (order_fits starts.now rows.now n) 0 (length rows.now) }
{
    first_in_columns(
        starts,
        n,
        |_j, lo, hi| first_fault(lo, hi, |p| order_ok(rows, lo, p)),
    )
}

// The area of the block at place p, in a column that is d wide.
#[tactic(auto, unfolding(tables::specs::Verdict::block_area))]
pub fn block_area(dims: &[u32], rows: &[u32], d: usize, p: usize) -> usize
    requires { Sizes dims.now × (d ≤ 16) × (p < length rows.now) × (at rows.now p < length dims.now) }
    ensures { result ≡ block_area dims.now rows.now d p }
{
    let x = rows[p] as usize;
    dims[x] as usize * d
}

// The area of the blocks at lo..hi, a column that is d wide.
pub fn column_area(dims: &[u32], rows: &[u32], d: usize, lo: usize, hi: usize) -> usize
    requires { Sizes dims.now × ((p : ℕ) → p < hi → at rows.now p < length dims.now) × (d ≤ 16) × (lo ≤ hi) × (hi ≤ length rows.now) × (hi ≤ 16777216) }
    ensures { result ≡ sum (block_area dims.now rows.now d) lo hi }
{
    let mut s: usize = 0;
    for i in lo..hi {
        s += block_area(dims, rows, d, i);
    }
    s
}

// 7: the area of all stored blocks.
pub fn total_area(dims: &[u32], starts: &[u32], rows: &[u32]) -> usize
    requires { Measured dims.now starts.now rows.now }
    ensures { result ≡ areas dims.now starts.now rows.now }
{
    let mut s: usize = 0;
    for (j, &d) in dims.iter().enumerate() {
        let lo = starts[j] as usize;
        let hi = starts[j + 1] as usize;
        s += column_area(dims, rows, d as usize, lo, hi);
    }
    s
}
