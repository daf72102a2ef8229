// The marks of a night's scalars, where the dimensions and the order are known to be good.
// Kept: that dimensions are sizes, that they are few, and that an order permutes them stand by themselves: calls of other crates ask for only one of
// the three, so a record of all would ask them for more.
ghost use Rattle.std.specs.Prelude.{◌≡◌, ◌+◌, ◌≤◌, length};
ghost use Rattle.graph.specs.Order.{Permutes};
ghost use Rattle.tables.specs.Sound.{Sizes};
ghost use Rattle.scalars.specs.Scalars.{scalar_starts, scalar_count};
ghost use Rattle.marks.specs.Mark.{mark, byte_of, silent_of, marks_of};

// What a scalar's stored d says of its sensor.
#[derive(Clone, Copy, Debug, PartialEq, Eq)]
pub enum Mark {
    // Nothing was heard: the solution's 0.0 means no evidence.
    Silent,
    Heard,
}

// The mark of a scalar by its stored d. -0.0 is silent too, and a NaN is heard. The tolerance does not yet tell marks apart.
pub fn mark_of(d: f64, tol: f64) -> Mark
    ensures { result ≡ mark tol d }
{
    if d == 0.0 { Mark::Silent } else { Mark::Heard }
}

// A mark as a byte.
impl From<Mark> for u8 {
    ghost from_gives = { λ m b. b ≡ byte_of m };

    fn from(m: Mark) -> u8 {
        match m {
            Mark::Silent => 0,
            Mark::Heard => 1,
        }
    }
}

// The byte of each scalar, in old order. Returns how many are silent. `starts` is room for where the scalars of each old block begin.
pub fn mark_core(
    dims: &[u32],
    order: &[u32],
    d: &[f64],
    tol: f64,
    starts: &mut [u32],
    marks: &mut [u8],
) -> usize
    requires dims_len_bound { (length dims.now ≤ 4096) × Sizes dims.now × Permutes (length dims.now) order.now }
    requires d_len { (length d.now ≡ scalar_count dims.now) × (length marks.old ≡ scalar_count dims.now) × (length dims.now + 1 ≤ length starts.old) }
    ensures { (result ≡ silent_of tol d.now) × (marks.new ≡ marks_of dims.now order.now tol d.now) }
{
    let n1 = dims.len() + 1;
    scalars::cores::make_flat_subdivision(dims, &mut starts[..n1]);
    mark_scalars(dims, order, &starts[..n1], d, tol, marks)
}

// The same, block by block in the order of elimination: d lies so.
fn mark_scalars(
    dims: &[u32],
    order: &[u32],
    old_starts: &[u32],
    d: &[f64],
    tol: f64,
    marks: &mut [u8],
) -> usize
    requires dims_len_bound { (length dims.now ≤ 4096) × Sizes dims.now × Permutes (length dims.now) order.now }
    requires old_starts_value { (old_starts.now ≡ scalar_starts dims.now) × (length d.now ≡ scalar_count dims.now) × (length marks.old ≡ scalar_count dims.now) }
    ensures { (result ≡ silent_of tol d.now) × (marks.new ≡ marks_of dims.now order.now tol d.now) }
{
    let mut silent: usize = 0;
    // Kept: `place` goes on through two loops, which no one range counts.
    let mut place: usize = 0;
    for &block in order {
        let old = block as usize;
        let start = old_starts[old] as usize;
        let size = dims[old] as usize;
        for s in 0..size {
            let m = mark_of(d[place], tol);
            marks[start + s] = u8::from(m);
            silent += usize::from(m == Mark::Silent);
            place += 1;
        }
    }
    silent
}
