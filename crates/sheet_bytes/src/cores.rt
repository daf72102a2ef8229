// Tables of little-endian numbers, for callers who know that the bytes are there. Where each part of a sheet lies is said in
// specs/Layout.antt.
ghost use Rattle.std.specs.Prelude.{◌≡◌, ℕ, ◌+◌, ◌*◌, ◌<◌, ◌≤◌, length};
ghost use Rattle.sheet_bytes.specs.Layout.{u32s, f64s};

use bits::cores::{f64_at, set_each, u32_at};

// A table of u32s, the first at `start`, each `stride` bytes after the one before.
pub fn read_u32s(s: &[u8], start: usize, stride: usize, out: &mut [u32])
    requires { (k : ℕ) → k < length out.old → start + stride * k + 4 ≤ length s.now }
    ensures { out.new ≡ u32s s.now start stride (length out.old) }
{
    set_each(out, |k| u32_at(s, start + stride * k));
}

// Floats back to back, the first at `start`.
pub fn read_f64s(s: &[u8], start: usize, out: &mut [f64])
    requires { start + 8 * length out.old ≤ length s.now }
    ensures { out.new ≡ f64s s.now start (length out.old) }
{
    set_each(out, |k| f64_at(s, start + 8 * k));
}
