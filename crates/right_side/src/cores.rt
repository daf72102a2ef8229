// Scalars under a permutation that is known to be good: perm[new] = old.
ghost use Rattle.std.specs.Prelude.{◌≡◌, ◌<◌, length};
ghost use Rattle.graph.specs.Order.{Permutes};
ghost use Rattle.solution.specs.Solution.{permuted, unpermuted};

// y becomes b by new number.
pub fn permute(perm: &[u32], b: &[f64], y: &mut [f64])
    requires { Permutes (length perm.now) perm.now × (length b.now ≡ length perm.now) × (length y.old ≡ length perm.now) }
    ensures { y.new ≡ permuted perm.now b.now }
{
    for (new, &old) in perm.iter().enumerate() {
        y[new] = b[old as usize];
    }
}

// x becomes y by old number.
pub fn unpermute(perm: &[u32], y: &[f64], x: &mut [f64])
    requires { Permutes (length perm.now) perm.now × (length y.now ≡ length perm.now) × (length x.old ≡ length perm.now) }
    ensures { x.new ≡ unpermuted perm.now y.now }
{
    for (new, &old) in perm.iter().enumerate() {
        x[old as usize] = y[new];
    }
}
