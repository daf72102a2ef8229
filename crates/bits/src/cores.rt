// Numbers that stand in bytes, and a list set place by place.
ghost use Rattle.std.specs.Prelude.{◌≡◌, ℕ, ◌+◌, ◌<◌, ◌≤◌, length, slice_get, Some};
ghost use Rattle.bits.specs.Bytes.{u32_at, u64_at, f64_at};

use crate::{number, whole};

// The u32 whose four bytes stand from `at` on, the least first.
pub fn u32_at(s: &[u8], at: usize) -> u32
    requires { at + 4 ≤ length s.now }
    ensures { result ≡ u32_at s.now at }
{
    u32::from_le_bytes([s[at], s[at + 1], s[at + 2], s[at + 3]])
}

// The u64 that stands from `at` on: two u32s, the lesser first.
pub fn u64_at(s: &[u8], at: usize) -> u64
    requires { at + 8 ≤ length s.now }
    ensures { result ≡ u64_at s.now at }
{
    whole(u32_at(s, at), u32_at(s, at + 4))
}

// The float whose bits stand from `at` on. Every NaN's bits are the one NaN.
pub fn f64_at(s: &[u8], at: usize) -> f64
    requires { at + 8 ≤ length s.now }
    ensures { result ≡ f64_at s.now at }
{
    number(u64_at(s, at))
}

// Each place of a list becomes what `value` gives for it.
pub fn set_each<T: Copy, F: Fn(usize) -> T>(out: &mut [T], value: F)
    requires { (k : ℕ) → k < length out.old → F.pre value k }
    ensures room { length out.new ≡ length out.old }
    ensures each { (f : ℕ → T) → ((k : ℕ) (x : T) → k < length out.old → F.post value k x → x ≡ f k) → (k : ℕ) → k < length out.old → slice_get out.new k ≡ Some (f k) }
{
    for (k, x) in out.iter_mut().enumerate() {
        *x = value(k);
    }
}
