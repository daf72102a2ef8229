// One case of the list: read, laid out, replayed and judged.
ghost use Rattle.std.specs.Prelude.{◌≤◌};

use crate::calls::{Op, call, head_of};
use replay::{count, fill, on, same_slice};
use vector_answers::matches;
use word_list::cases::{BadList, Case};
use word_list::room::Room;

const STDIN: i32 = 0;

// No slice of the list is longer.
const ROOM: usize = 512;

// Reads the next case and judges it; none is the word that ends the list. A list is bad where the input ends early or a case does not fit.
pub fn next() -> Result<Option<Case>, BadList> {
    let mut head = [0u8; 8];
    if io::read_full(STDIN, &mut head) < 8 {
        return Err(BadList {});
    }
    let words = count(&head, 0);
    if words == 0 {
        return Ok(None);
    }
    if words > 8192 {
        return Err(BadList {});
    }
    let mut buffer = io::large_buffer();
    let case = read_case(&mut buffer[..words * 8])?;
    Ok(Some(case))
}

fn read_case(buffer: &mut [u8]) -> Result<Case, BadList> {
    let got = io::read_full(STDIN, buffer);
    let kind = count(buffer, 0);
    let op = Op::try_from(kind)?;
    if got < buffer.len() || !is_case(buffer, op) {
        return Err(BadList {});
    }
    Ok(Case::one(kind, is_right(buffer, op)))
}

// Whether the call of a case answers as the list says, and leaves every slice as it says.
fn is_right(w: &[u8], op: Op) -> bool {
    let mut a = numbers(w, 0);
    let mut b = numbers(w, 1);
    let mut c = numbers(w, 2);
    let mut d = numbers(w, 3);
    agrees(
        w,
        op,
        a.part_mut(),
        b.part_mut(),
        c.part_mut(),
        d.part_mut(),
    )
}

// Slice i's numbers before the call, and zeros after them.
fn numbers(w: &[u8], i: usize) -> Room<f64, ROOM> {
    let mut places = [0.0; ROOM];
    let long = length_of(w, i);
    fill(w, on(place(w, i), 1), &mut places[..long]);
    Room { places, long }
}

// Whether the call on a, b, c and d answers as the list says, and every slice is afterwards what it says.
fn agrees(w: &[u8], op: Op, a: &mut [f64], b: &mut [f64], c: &mut [f64], d: &mut [f64]) -> bool {
    matches(w, answer(w), call(op, head_of(w), a, b, c, d)) && same_slices(w, a, b, c, d)
}

// Kept: each slice is compared by `same_slice`, for which a NaN is a NaN and the zeros differ.
fn same_slices(w: &[u8], a: &[f64], b: &[f64], c: &[f64], d: &[f64]) -> bool {
    same_slice(w, after(w, 0), a)
        && same_slice(w, after(w, 1), b)
        && same_slice(w, after(w, 2), c)
        && same_slice(w, after(w, 3), d)
}

// Whether the words are laid out as those of a case: as many slices as its function takes, none longer than the room for it, and
// no word too few or too many.
fn is_case(w: &[u8], op: Op) -> bool {
    let slices = op.slices();
    count(w, 5) == slices && have_room(w, slices) && after(w, slices) == w.len() / 8
}

fn have_room(w: &[u8], slices: usize) -> bool {
    (0..slices).all(|i| count(w, place(w, i)) <= ROOM)
}

// The length of slice i, at most the room for it; 0 where the case has no such slice.
fn length_of(w: &[u8], i: usize) -> usize
    ensures { result ≤ ROOM }
{
    if count(w, 5) <= i {
        return 0;
    }
    ROOM.min(count(w, place(w, i)))
}

// Where slice i's length stands; past the last slice, where the answer does.
fn place(w: &[u8], i: usize) -> usize {
    let mut at: usize = 6;
    for _ in 0..i {
        at = on(at, on(1, count(w, at)));
    }
    at
}

// Where the answer stands.
fn answer(w: &[u8]) -> usize {
    place(w, count(w, 5))
}

// Where slice i's numbers after the call start.
fn after(w: &[u8], i: usize) -> usize {
    let indices = on(answer(w), 1);
    let floats = on(indices, on(1, count(w, indices)));
    let mut at = on(floats, on(1, count(w, floats)));
    for j in 0..i {
        at = on(at, length_of(w, j));
    }
    at
}
