// The words of a list of cases, 64 bits each, little-endian: read as counts and floats, and compared. A word past the end is 0.
#![tactic(auto)]

ghost use Rattle.std.specs.Prelude.{◌≡◌};
ghost use Rattle.replay.specs.Words.{word_at, word_float, onward, Stands, Same, Compared};

use bits::cores::{set_each, u64_at};
use bits::number;

// The word at a place, as a count.
pub fn count(w: &[u8], at: usize) -> usize
    ensures { result ≡ word_at w.now at }
{
    word(w, at) as usize
}

// The word at a place, as the bits of a float.
pub fn float(w: &[u8], at: usize) -> f64
    ensures { result ≡ word_float w.now at }
{
    number(word(w, at))
}

// The place `by` words after `at`, or past every case.
pub fn on(at: usize, by: usize) -> usize
    ensures { result ≡ onward at by }
{
    at.saturating_add(by).min(8192)
}

// Whether two floats are the same, sign of zero and all. Two NaNs are.
// Kept: `==` of floats takes the two zeros for one, and no NaN for another.
pub fn same(a: f64, b: f64) -> bool
    ensures { Same a b result }
{
    if a.is_nan() {
        return b.is_nan();
    }
    if b.is_nan() {
        return false;
    }
    a.to_bits() == b.to_bits()
}

// The floats from `at` on.
pub fn fill(w: &[u8], at: usize, out: &mut [f64])
    ensures { Stands w.now at out.new }
{
    set_each(out, |k| float(w, on(at, k)));
}

// Whether the floats from `at` on are those of a.
pub fn same_slice(w: &[u8], at: usize, a: &[f64]) -> bool
    ensures { Compared w.now at a.now result }
{
    a.iter()
        .enumerate()
        .all(|(k, &x)| same(x, float(w, on(at, k))))
}

fn word(w: &[u8], at: usize) -> u64
    ensures { result ≡ word_at w.now at }
{
    if at < w.len() / 8 {
        u64_at(w, at * 8)
    } else {
        0
    }
}
