// The product in tiles, where the lengths are known to be right.
// Kept: how long each slice is, as a fact about sizes that the slices of a call share: structs with sizes of their own would need as many facts, that these agree.
ghost use Rattle.std.specs.Prelude.{◌≡◌, ◌+◌, ◌-◌, ◌*◌, ◌<◌, length};
ghost use Rattle.std.specs.Float.{binary64};
ghost use Rattle.std.specs.Float.Ieee.{mul};
ghost use Rattle.scalar.specs.Block.{at, gain};
ghost use Rattle.machine.specs.Machine.{mat_product};
ghost use Rattle.tiled_product.specs.Tiled.{Formula};

use scalar::cores::entry;
use tiled_product::cores::{Product, one, strips};

// A B, A of h rows and m columns, B of m rows and w columns.
#[derive(Drop)]
struct Sum<'a> {
    h: usize,
    m: usize,
    w: usize,
    a: &'a [f64],
    b: &'a [f64],
    ghost some: { 0 < m },
    ghost long_a: { length a.now ≡ h * m },
    ghost long_b: { length b.now ≡ m * w },
}

// An entry starts from its first product, whatever stands there, and gains another at each turn.
impl<'a> Product for Sum<'a> {
    ghost formula = { λ p. record { rows = p.h; columns = p.w; turns = p.m - 1; first = λ r c x. mul binary64 (at p.a.now p.h r 0) (at p.b.now p.m 0 c); left = λ r t. at p.a.now p.h r (t + 1); right = λ c t. at p.b.now p.m (t + 1) c; turn = gain } };

    fn turns(&self) -> usize {
        self.m - 1
    }

    fn first(&self, r: usize, c: usize, _x: f64) -> f64 {
        entry(self.a, self.h, self.m, r, 0) * entry(self.b, self.m, self.w, 0, c)
    }

    fn left(&self, r: usize, t: usize) -> f64 {
        entry(self.a, self.h, self.m, r, t + 1)
    }

    fn right(&self, c: usize, t: usize) -> f64 {
        entry(self.b, self.m, self.w, t + 1, c)
    }

    fn turn(&self, s: f64, a: f64, b: f64) -> f64 {
        s + a * b
    }
}

// q becomes A B, A of h rows and m columns, B of m rows and w columns, whatever q was.
// Kept: one choice between `one` and `strips`, as in `tiled_product`, where a line says why.
pub fn multiply(h: usize, m: usize, w: usize, a: &[f64], b: &[f64], q: &mut [f64])
    requires { (0 < m) × (length a.now ≡ h * m) × (length b.now ≡ m * w) × (length q.old ≡ h * w) }
    ensures { q.new ≡ mat_product h m w a.now b.now }
{
    if h == 1 {
        if w == 1 {
            one(
                &Sum {
                    h: 1,
                    m,
                    w: 1,
                    a,
                    b,
                },
                q,
            );
            return;
        }
    }
    many(h, m, w, a, b, q);
}

// The same for any number of entries. It is no part of its caller, so that a product of one entry has no registers to save.
#[inline(never)]
fn many(h: usize, m: usize, w: usize, a: &[f64], b: &[f64], q: &mut [f64])
    requires { (0 < m) × (length a.now ≡ h * m) × (length b.now ≡ m * w) × (length q.old ≡ h * w) }
    ensures { q.new ≡ mat_product h m w a.now b.now }
{
    strips(&Sum { h, m, w, a, b }, h, w, q);
}
