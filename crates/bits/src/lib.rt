// Numbers from their bytes and floats from their bits, and lists of them place by place, for whoever reads a sheet or a list of cases.
#![tactic(auto)]

pub mod cores;

ghost use Rattle.std.specs.Prelude.{◌≡◌};
ghost use Rattle.std.specs.Float.{binary64};
ghost use Rattle.std.specs.Float.Ieee.{of_bits};
ghost use Rattle.bits.specs.Bytes.{whole_of};

use scalar::not_a_number;

// Bits as a float. Every NaN's bits are the one NaN.
pub fn number(bits: u64) -> f64
    ensures { result ≡ of_bits binary64 bits }
{
    if bits % 0x8000_0000_0000_0000 > 0x7ff0_0000_0000_0000 {
        return not_a_number();
    }
    f64::from_bits(bits)
}

// The number of 64 bits with this low and this high word.
pub fn whole(low: u32, high: u32) -> u64
    ensures { result ≡ whole_of low high }
{
    u64::from(low) + 4294967296 * u64::from(high)
}
