// Digits, and texts written one behind the other into a lent buffer that has the room.
ghost use Rattle.std.specs.Prelude.{◌≡◌, ◌+◌, ◌<◌, ◌≤◌, length};
ghost use Rattle.digits.specs.Digits.{digit as Digits·digit, digits, places as Digits·places, decimal, hex16, bits_of, Writes};

// A lent buffer, and how far it is written.
#[derive(Drop)]
pub struct Writer<'a> {
    pub out: &'a mut [u8],
    pub at: usize,
}

impl Writer<'_> {
    // A text.
    pub fn text(&mut self, text: &[u8])
        requires { self.old.at + length text.now ≤ length self.old.out.now }
        ensures { Writes text.now self.old self.new }
    {
        let from = self.at;
        let to = from + text.len();
        let out = &mut *self.out;
        out[from..to].copy_from_slice(text);
        self.at = to;
    }

    // n in decimal, with no leading zeros.
    pub fn decimal(&mut self, n: u64)
        requires { self.old.at + length (decimal n) ≤ length self.old.out.now }
        ensures { Writes (decimal n) self.old self.new }
    {
        self.digits(10, places(n), n);
    }

    // Sixteen hexadecimal digits.
    pub fn hex(&mut self, bits: u64)
        requires { self.old.at + 16 ≤ length self.old.out.now }
        ensures { Writes (hex16 bits) self.old self.new }
    {
        self.digits(16, 16, bits);
    }

    // The last k digits of n.
    fn digits(&mut self, base: u64, k: usize, n: u64)
        requires { (0 < base) × (base ≤ 16) × (self.old.at + k ≤ length self.old.out.now) }
        ensures { Writes (digits base k n) self.old self.new }
    {
        let from = self.at;
        let to = from + k;
        let out = &mut *self.out;
        spell(&mut out[from..to], base, n);
        self.at = to;
    }
}

// The ASCII code of a digit.
pub fn digit(d: u64) -> u8
    requires { d < 16 }
    ensures { result ≡ Digits·digit d }
{
    if d < 10 { 48 + d as u8 } else { 55 + d as u8 }
}

// The last digits of n, as many as there are places, from the last to the first.
pub fn spell(out: &mut [u8], base: u64, n: u64)
    requires { (0 < base) × (base ≤ 16) }
    ensures { out.new ≡ digits base (length out.old) n }
{
    let mut rest = n;
    for i in (0..out.len()).rev() {
        out[i] = digit(rest % base);
        rest /= base;
    }
}

// How many decimal digits n has. `unit` is the power of ten that the k-th digit from the end stands for.
pub fn places(n: u64) -> usize
    ensures { (result ≡ Digits·places n) × (result ≤ 20) }
{
    let mut unit: u64 = 1;
    for k in 1..20 {
        if n / unit < 10 {
            return k;
        }
        unit *= 10;
    }
    20
}

// The bits of x; of every NaN those of document 01's.
pub fn bits_of(x: f64) -> u64
    ensures { result ≡ bits_of x }
{
    if x.is_nan() {
        return 0x7ff8_0000_0000_0000;
    }
    x.to_bits()
}
