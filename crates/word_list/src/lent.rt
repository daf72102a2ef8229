// The tables that are lent to a call: marked before it, and after it zeros or what the list says, and marks beyond.
// Kept: how many entries the list has for a table, `upto`, beside the table: it may be more than the table has, and the places beyond are looked at too.
ghost use Rattle.std.specs.Prelude.{◌≡◌, true, ◌≤◌, ◌<◌, length, drop, replicate, IfSome};
ghost use Rattle.word_list.specs.Lent.{Marked, Holds, Each, Tells};

use crate::entry::Entry;
use bits::cores::set_each;

// A buffer to lend, marked.
pub fn lent<E: Entry, const N: usize>() -> [E; N]
    ensures room { N ≡ length result }
    ensures marked { Marked E.marks 0 result }
{
    let mut x = [E::zero(); N];
    mark(&mut x);
    x
}

// The next entries of the list as a table, and zeros beyond.
pub fn table<E: Entry, const N: usize>(upto: usize) -> [E; N]
    ensures room { N ≡ length result }
    ensures beyond { drop upto result ≡ drop upto (replicate N E.nought) }
{
    let mut x = [E::zero(); N];
    read(&mut x, upto);
    x
}

// Sets the mark of each place.
pub fn mark<E: Entry>(out: &mut [E])
    ensures room { length out.new ≡ length out.old }
    ensures marked { Marked E.marks 0 out.new }
{
    set_each(out, |k| E::mark(k));
}

// Fills the first `upto` places of a table from the list, with 0 where the input has ended. The places beyond stay.
pub fn read<E: Entry>(out: &mut [E], upto: usize)
    ensures { drop upto out.new ≡ drop upto out.old }
{
    for at in 0..upto {
        let x = E::next().unwrap_or(E::zero());
        if at < out.len() {
            out[at] = x;
        }
    }
}

// Whether the first `upto` places are there and hold the entries that come next, which are read in any case.
pub fn listed<E: Entry>(a: &[E], upto: usize) -> bool
    ensures { result ≡ true → upto ≤ length a.now }
{
    let mut same = true;
    for k in 0..upto {
        let x = E::next();
        same = is_at(a, k, x) && same;
    }
    same
}

fn is_at<E: Entry>(a: &[E], k: usize, x: Option<E>) -> bool
    ensures { result ≡ true → k < length a.now }
{
    match x {
        Some(x) => k < a.len() && a[k].is(x),
        None => false,
    }
}

// Whether each place from `from` on has its mark.
pub fn kept<E: Entry>(a: &[E], from: usize) -> bool
    ensures { Tells (Marked E.marks from a.now) result }
{
    // Kept: tried as `all` over the places, and over the part of the table from there on: the search does not find what it answers of all marks.
    for k in from..a.len() {
        if !a[k].is(E::mark(k)) {
            return false;
        }
    }
    true
}

// Whether the first `upto` places are there and hold x.
pub fn holds<E: Entry>(a: &[E], upto: usize, x: E) -> bool
    ensures { Tells (Holds upto x a.now) result }
{
    match a.get(..upto) {
        Some(part) => part.iter().all(|&y| y.is(x)),
        None => false,
    }
}

// x up to a place, and marks from it on.
pub fn filled<E: Entry>(a: &[E], upto: usize, x: E) -> bool
    ensures { Tells (Holds upto x a.now × Marked E.marks upto a.now) result }
{
    holds(a, upto, x) && kept(a, upto)
}

// Zeros up to a place, and marks from it on.
pub fn scratch<E: Entry>(a: &[E], upto: usize) -> bool
    ensures { Tells (Holds upto E.nought a.now × Marked E.marks upto a.now) result }
{
    filled(a, upto, E::zero())
}

// The same of several buffers.
pub fn all_scratch<E: Entry>(buffers: &[&[E]], upto: usize) -> bool
    ensures { Tells (Each buffers.now (λ a. Holds upto E.nought a.now × Marked E.marks upto a.now)) result }
{
    buffers.iter().all(|a| scratch(a, upto))
}

// The entries that come next up to a place, and marks from it on.
pub fn output<E: Entry>(a: &[E], upto: usize) -> bool
    ensures { result ≡ true → (upto ≤ length a.now) × Marked E.marks upto a.now }
{
    let same = listed(a, upto);
    kept(a, upto) && same
}

// The entries that come next up to a place, or there `every` throughout where it is given; and marks from it on.
pub fn written<E: Entry>(a: &[E], upto: usize, every: Option<E>) -> bool
    ensures place { result ≡ true → (upto ≤ length a.now) × Marked E.marks upto a.now }
    ensures every { result ≡ true → IfSome every (λ x. Holds upto x a.now) }
{
    match every {
        Some(x) => filled(a, upto, x),
        None => output(a, upto),
    }
}
