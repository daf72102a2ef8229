// The searches that the checks of tables are made of, those over the row table apart. How one is made:
//   NAME_ok      one place of one table: its test in specs/Verdict.antt
//   first_NAME   the first place at which the test fails, if there is one
// Kept: `k < length ..` and `n ≤ 4096` are each about a number that the search around counts, or a length; a type for such a number would be built at each turn.
ghost use Rattle.std.specs.Prelude.{◌≡◌, ℕ, Bool, ◌+◌, ◌<◌, ◌≤◌, length, take};
ghost use Rattle.tables.specs.Search.{fault};
ghost use Rattle.tables.specs.Verdict.{dim_ok, rises_at, start_ok, perm_ok, late_ok, parent_fits};
ghost use Rattle.tables.specs.Sound.{Marked};

// The parent of a root.
pub const NONE: u32 = 4_294_967_295;

// The dimension of block k is 1 to 16.
#[tactic(auto, unfolding(crate::specs::Verdict::dim_ok))]
pub fn dim_ok(dims: &[u32], k: usize) -> bool
    requires { k < length dims.now }
    ensures { result ≡ dim_ok dims.now k }
{
    let d = dims[k];
    1 <= d && d <= 16
}

// The first place in lo..hi at which a test fails.
pub fn first_fault<P: Fn(usize) -> bool>(lo: usize, hi: usize, passes: P) -> Option<usize>
    requires { (k : ℕ) → lo ≤ k → k < hi → P.pre passes k }
    ensures { (test : ℕ → Bool) → ((k : ℕ) (b : Bool) → lo ≤ k → k < hi → P.post passes k b → b ≡ test k) → result ≡ fault test lo hi }
{
    for k in lo..hi {
        if !passes(k) {
            return Some(k);
        }
    }
    None
}

// 2: the first block whose dimension is 0 or above 16.
pub fn first_dim(dims: &[u32]) -> Option<usize>
    ensures { result ≡ fault (dim_ok dims.now) 0 (length dims.now) }
{
    first_fault(0, dims.len(), |k| dim_ok(dims, k))
}

// The first column start is 0, and no other is below the one before it.
#[tactic(auto, unfolding(crate::specs::Verdict::rises_at))]
pub fn rises(starts: &[u32], k: usize) -> bool
    requires { k < length starts.now }
    ensures { result ≡ rises_at starts.now k }
{
    let s = starts[k] as usize;
    if k == 0 {
        return s == 0;
    }
    let b = starts[k - 1] as usize;
    b <= s
}

// The starts of n columns over m rows are right at place k.
#[tactic(auto, unfolding(crate::specs::Verdict::start_ok))]
pub fn start_ok(starts: &[u32], n: usize, m: usize, k: usize) -> bool
    ensures { result ≡ start_ok starts.now n m k }
{
    if n < k {
        return starts.len() <= k;
    }
    if starts.len() <= k {
        return false;
    }
    if !rises(starts, k) {
        return false;
    }
    if k < n {
        return true;
    }
    starts[k] as usize == m
}

// 3: the first wrong place of the starts of n columns over m rows.
pub fn first_start(starts: &[u32], n: usize, m: usize) -> Option<usize>
    requires { n ≤ 4096 }
    ensures { result ≡ fault (start_ok starts.now n m) 0 (n + 2) }
{
    first_fault(0, n + 2, |k| start_ok(starts, n, m, k))
}

// The permutation of n blocks is right at place k; `seen` marks the entries before.
#[tactic(auto, using(crate::proofs::MarkLaws::unmarked), unfolding(crate::specs::Verdict::perm_ok))]
pub fn perm_ok(perm: &[u32], n: usize, k: usize, seen: &[u8; 4096]) -> bool
    requires { (n ≤ 4096) × Marked seen.now (take k perm.now) }
    ensures { result ≡ perm_ok perm.now n k }
{
    if n <= k {
        return perm.len() <= k;
    }
    if perm.len() <= k {
        return false;
    }
    let v = perm[k] as usize;
    if n <= v {
        return false;
    }
    seen[v] == 0
}

// 8: the first place of the permutation that is wrong. The marks are a local array: a refusal leaves every lent buffer as it
// was, and a lent one could be too short, which is a later number.
pub fn first_perm(perm: &[u32], n: usize) -> Option<usize>
    requires { n ≤ 4096 }
    ensures { result ≡ fault (perm_ok perm.now n) 0 (n + 1) }
{
    let mut seen = [0u8; 4096];
    for i in 0..n {
        if !perm_ok(perm, n, i, &seen) {
            return Some(i);
        }
        let v = perm[i] as usize;
        seen[v] = 1;
    }
    if perm_ok(perm, n, n, &seen) {
        return None;
    }
    Some(n)
}

// The late flags of n blocks are right at place k.
#[tactic(auto, unfolding(crate::specs::Verdict::late_ok))]
pub fn late_ok(late: &[u32], n: usize, k: usize) -> bool
    ensures { result ≡ late_ok late.now n k }
{
    if n <= k {
        return late.len() <= k;
    }
    if late.len() <= k {
        return false;
    }
    late[k] <= 1
}

// 9: the first place of the late flags that is wrong.
pub fn first_late(late: &[u32], n: usize) -> Option<usize>
    requires { n ≤ 4096 }
    ensures { result ≡ fault (late_ok late.now n) 0 (n + 1) }
{
    first_fault(0, n + 1, |k| late_ok(late, n, k))
}

// The parent of block k is none or a greater one of n blocks.
#[tactic(auto, unfolding(crate::specs::Verdict::parent_fits))]
pub fn parent_fits(parents: &[u32], n: usize, k: usize) -> bool
    requires { k < length parents.now }
    ensures { result ≡ parent_fits n parents.now k }
{
    let p = parents[k];
    if p == NONE {
        return true;
    }
    let at = p as usize;
    k < at && at < n
}

// 5: the first block whose parent is neither none nor a greater one of n blocks, whatever the count of the parents.
pub fn first_parent(parents: &[u32], n: usize) -> Option<usize>
    ensures { result ≡ fault (parent_fits n parents.now) 0 (length parents.now) }
{
    first_fault(0, parents.len(), |k| parent_fits(parents, n, k))
}
