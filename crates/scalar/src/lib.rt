// Single floats and the entries of a block: what every kernel stands on.
#![tactic(auto)]

pub mod cores;

ghost use Rattle.std.specs.Prelude.{◌≡◌, length};
ghost use Rattle.std.specs.Float.{nan};
ghost use Rattle.std.specs.Float.Ieee.{le};
ghost use Rattle.scalar.specs.Block.{nans, zeros};
ghost use Rattle.scalar.specs.Scalar.{magnitude, is_finite, max, min, is_tolerance};

// |x|: the sign goes, also that of -0.0.
pub fn abs(x: f64) -> f64
    ensures { result ≡ magnitude x }
{
    x.abs()
}

// Whether |x| is at most t.
pub fn at_most(x: f64, t: f64) -> bool
    ensures { result ≡ le (magnitude x) t }
{
    abs(x) <= t
}

// Whether x is no NaN and no infinity.
pub fn is_finite(x: f64) -> bool
    ensures { result ≡ is_finite x }
{
    x.is_finite()
}

// The greater of two numbers: of a NaN and a number, the number.
// Kept: std's `max` and `min` leave open which of the two zeros they give; these give the first.
pub fn max(a: f64, b: f64) -> f64
    ensures { result ≡ max a b }
{
    if a.is_nan() {
        return b;
    }
    if a < b { b } else { a }
}

// The lesser of two numbers: of a NaN and a number, the number.
pub fn min(a: f64, b: f64) -> f64
    ensures { result ≡ min a b }
{
    if a.is_nan() {
        return b;
    }
    if b < a { b } else { a }
}

// Whether x can be a relative tolerance: finite and not below zero.
pub fn is_tolerance(x: f64) -> bool
    ensures { result ≡ is_tolerance x }
{
    if is_finite(x) {
        return !(x < 0.0);
    }
    false
}

// The NaN. The compiler folds this quotient of literals to the bits 0x7FF8000000000000, where the machine's own division
// would set the sign; the logic cannot say which NaN it is, so a test of the compiled code does.
pub fn not_a_number() -> f64
    ensures { result ≡ nan }
{
    0.0 / 0.0
}

// Every number becomes the NaN.
pub fn blank(x: &mut [f64])
    ensures { x.new ≡ nans (length x.old) }
{
    x.fill(not_a_number());
}

// Every number becomes 0.0.
pub fn clear(x: &mut [f64])
    ensures { x.new ≡ zeros (length x.old) }
{
    x.fill(0.0);
}
