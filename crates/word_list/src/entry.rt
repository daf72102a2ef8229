// The entries of a list: words, and floats of two words each.
ghost use Rattle.std.specs.Prelude.{◌≡◌, ℕ, ◌<◌, ◌%◌};
ghost use Rattle.std.specs.Float.{binary64};
ghost use Rattle.std.specs.Float.Ieee.{of_bits};
ghost use Rattle.scalar.specs.Scalar.{nought as float_nought};
ghost use Rattle.bits.specs.Bytes.{whole_of};
ghost use Rattle.word_list.specs.Lent.{Tells};
ghost use Rattle.word_list.specs.Mark.{word_mark, float_mark};

use bits::{number, whole};
use replay::same;

const STDIN: i32 = 0;

// What a list is made of.
pub trait Entry: Copy {
    ghost nought: { Self };

    // The mark of each place of a buffer that is lent.
    ghost marks: { ℕ → Self };

    // The next entry of the list; none where the input has ended.
    fn next() -> Option<Self>;

    fn zero() -> Self
        ensures { result ≡ nought };

    fn mark(k: usize) -> Self
        ensures { result ≡ marks k };

    fn is(self, other: Self) -> bool
        ensures { Tells (self ≡ other) result };
}

// A word of 32 bits, little-endian.
impl Entry for u32 {
    ghost nought = { 0 };

    ghost marks = { word_mark };

    fn next() -> Option<u32> {
        let mut b = [0u8; 4];
        if io::read_full(STDIN, &mut b) < 4 {
            return None;
        }
        Some(u32::from_le_bytes(b))
    }

    fn zero() -> u32 {
        0
    }

    fn mark(k: usize) -> u32 {
        3000000000 + over(k) as u32
    }

    fn is(self, other: u32) -> bool {
        self == other
    }
}

// A float of two words, the low one first. Every NaN is the one NaN, and the two zeros are two floats.
impl Entry for f64 {
    ghost nought = { float_nought };

    ghost marks = { float_mark };

    fn next() -> Option<f64> {
        let low = u32::next();
        let high = u32::next();
        Some(float(low?, high?))
    }

    fn zero() -> f64 {
        0.0
    }

    fn mark(k: usize) -> f64 {
        number(4748581863622180864 + over(k) as u64)
    }

    fn is(self, other: f64) -> bool {
        same(self, other)
    }
}

// How far the mark of place k is from the first. Nearly every place is its own: a loop over a whole buffer divides for none.
fn over(k: usize) -> usize
    ensures over { result ≡ k % 1000000000 }
    ensures small { result < 1000000000 }
{
    if k < 1000000000 { k } else { far(k) }
}

// The same for a place beyond. Not joined into its caller: there the division would be done for every place, and its outcome dropped.
#[inline(never)]
fn far(k: usize) -> usize
    ensures over { result ≡ k % 1000000000 }
    ensures small { result < 1000000000 }
{
    k % 1000000000
}

// The float with this low and this high word.
pub fn float(low: u32, high: u32) -> f64
    ensures { result ≡ of_bits binary64 (whole_of low high) }
{
    number(whole(low, high))
}
