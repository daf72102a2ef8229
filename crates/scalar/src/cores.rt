// The entries of a block. All that is not linear about places, r + c * h < h * w, is proved here and nowhere else.
ghost use Rattle.std.specs.Prelude.{◌≡◌, ℕ, ◌*◌, ◌<◌, List, Float, length, slice_index_or, slice_set};
ghost use Rattle.std.specs.Float.{nan, binary64};
ghost use Rattle.std.specs.Float.Ieee.{sub};
ghost use Rattle.scalar.specs.Block.{at, put, within};
ghost use Rattle.scalar.specs.Loop.{steps};

// The entry (r, c).
// Kept: that the entry is in the block, as a fact of two numbers that the loop around counts: a type for such a place would be made at each turn.
pub fn entry(m: &[f64], h: usize, w: usize, r: usize, c: usize) -> f64
    requires { (r < h) × (c < w) × (length m.now ≡ h * w) }
    ensures { result ≡ at m.now h r c }
{
    m[r + c * h]
}

// The entry (r, c) becomes x.
pub fn store(m: &mut [f64], h: usize, w: usize, r: usize, c: usize, x: f64)
    requires { (r < h) × (c < w) × (length m.old ≡ h * w) }
    ensures { m.new ≡ put m.old h r c x }
{
    m[r + c * h] = x;
}

// Each of the `count` columns of y, of `height` numbers, is changed by `step`.
pub fn each_column<F: Fn(&mut [f64])>(height: usize, count: usize, y: &mut [f64], step: F)
    requires y_len { length y.old ≡ height * count }
    requires callable { (x : _) → length x.now ≡ height → F.pre step x }
    ensures { (f : List Float → List Float) → ((x z : _) → length x.now ≡ height → F.post step x tt z → z.now ≡ f x.now) → y.new ≡ steps (λ c. within (c * height) height f) count y.old }
{
    // Kept: `chunks_exact_mut` asks that a chunk is not empty, and a block of height 0 is accepted.
    for c in 0..count {
        let from = c * height;
        let end = from + height;
        step(&mut y[from..end]);
    }
}

// y(k) loses what `loss` gives for k, for each k.
pub fn each_less<F: Fn(usize) -> f64>(y: &mut [f64], loss: F)
    requires { (k : ℕ) → k < length y.old → F.pre loss k }
    ensures { (f : ℕ → Float) → ((k : ℕ) (v : Float) → k < length y.old → F.post loss k v → v ≡ f k) → y.new ≡ steps (λ k z. slice_set z k (sub binary64 (slice_index_or z k nan) (f k))) (length y.old) y.old }
{
    for (k, x) in y.iter_mut().enumerate() {
        *x = *x - loss(k);
    }
}
