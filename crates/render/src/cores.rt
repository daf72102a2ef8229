// The lines of an answer, each written behind the one before into a lent buffer that has the room.
ghost use Rattle.std.specs.Prelude.{◌≡◌, ◌+◌, ◌≤◌, length};
ghost use Rattle.std.specs.Prelude.{Float};
ghost use Rattle.digits.specs.Digits.{Writes};
ghost use Rattle.render.specs.Lines.{field as Lines·field, line_feed, mark_word, refused_line, first_line, scalar_line, lines};

use digits::cores::{Writer, bits_of, places};

// A label and a number.
pub fn field(w: &mut Writer, label: &[u8], n: u64)
    requires { w.old.at + length (Lines·field label.now n) ≤ length w.old.out.now }
    ensures { Writes (Lines·field label.now n) w.old w.new }
{
    w.text(label);
    w.decimal(n);
}

// A refusal's line.
// Kept: the number, as in the crate's `refused`.
pub fn refused_line(w: &mut Writer, number: u64)
    requires { w.old.at + length (refused_line number) ≤ length w.old.out.now }
    ensures { Writes (refused_line number) w.old w.new }
{
    field(w, b"refused ", number);
    w.text(b"\n");
}

// The first line of an accepted answer.
pub fn first_line(
    w: &mut Writer,
    blocks: u64,
    scalars: u64,
    stored: u64,
    products: u64,
    silent: u64,
)
    requires { w.old.at + length (first_line blocks scalars stored products silent) ≤ length w.old.out.now }
    ensures { Writes (first_line blocks scalars stored products silent) w.old w.new }
{
    field(w, b"blocks ", blocks);
    field(w, b" scalars ", scalars);
    field(w, b" stored ", stored);
    field(w, b" products ", products);
    field(w, b" silent ", silent);
    w.text(b"\n");
}

// A mark's word: silent where it is 0, else heard.
pub fn mark_word(w: &mut Writer, mark: u8)
    requires { w.old.at + length (mark_word mark) ≤ length w.old.out.now }
    ensures { Writes (mark_word mark) w.old w.new }
{
    if mark == 0 {
        w.text(b" silent");
    } else {
        w.text(b" heard");
    }
}

// A scalar's line.
pub fn scalar_line(w: &mut Writer, k: u64, x: f64, mark: u8)
    requires { w.old.at + length (scalar_line k x mark) ≤ length w.old.out.now }
    ensures { Writes (scalar_line k x mark) w.old w.new }
{
    w.decimal(k);
    w.text(b" ");
    w.hex(bits_of(x));
    mark_word(w, mark);
    w.text(b"\n");
}

// How many bytes a scalar's line has, whatever its solution is.
pub fn line_length(k: u64, mark: u8) -> usize
    ensures { (result ≤ 45) × ((x : Float) → result ≡ length (scalar_line k x mark)) }
{
    let count = places(k);
    if mark == 0 {
        return count + 25;
    }
    count + 24
}

// How many bytes the lines of all scalars have.
pub fn lines_length(x: &[f64], marks: &[u8]) -> usize
    requires { (length x.now ≤ 65536) × (length marks.now ≡ length x.now) }
    ensures { (result ≡ length (lines x.now marks.now (length x.now))) × (result ≤ 2949120) }
{
    let mut sum: usize = 0;
    for (k, &mark) in marks.iter().enumerate() {
        sum += line_length(k as u64, mark);
    }
    sum
}

// How many bytes the first line has.
pub fn first_length(blocks: u64, scalars: u64, stored: u64, products: u64, silent: u64) -> usize
    ensures { (result ≡ length (first_line blocks scalars stored products silent)) × (result ≤ 143) }
{
    places(blocks) + places(scalars) + places(stored) + places(products) + places(silent) + 43
}

// The lines of all scalars.
pub fn put_lines(w: &mut Writer, x: &[f64], marks: &[u8])
    requires { (length marks.now ≡ length x.now) × (w.old.at + length (lines x.now marks.now (length x.now)) ≤ length w.old.out.now) }
    ensures { Writes (lines x.now marks.now (length x.now)) w.old w.new }
{
    // Kept: the mark by its place: with `zip` the loop keeps an iterator of pairs, and how many it has given is to be counted beside the place.
    for (k, &value) in x.iter().enumerate() {
        scalar_line(w, k as u64, value, marks[k]);
    }
}
