// The tables of a factor's diagonal, where the dimensions are known to be good.
ghost use Rattle.std.specs.Prelude.{◌≡◌, ℕ, ◌<◌, ◌≤◌, length, slice_index};
ghost use Rattle.layout.specs.Layout.{squares, widest};

// The area of each diagonal block.
pub fn square(sizes: &[u32], out: &mut [u32])
    requires out_len { length out.old ≡ length sizes.now }
    requires by_index { (k : ℕ) → k < length sizes.now → slice_index sizes.now k ≤ 16 }
    ensures { out.new ≡ squares sizes.now }
{
    for (k, &size) in sizes.iter().enumerate() {
        out[k] = size * size;
    }
}

// The greatest dimension.
// Kept: `max` of an iterator promises an item that is some greatest, and a law as long as this loop would have to make the definition of it.
pub fn widest_of(sizes: &[u32]) -> u32
    ensures { result ≡ widest sizes.now }
{
    let mut most = 0;
    for &size in sizes {
        most = most.max(size);
    }
    most
}
