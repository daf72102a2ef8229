// Replays the oracle's sheets, on standard input, against the library: how many of the accepted ones and of the refused ones are
// answered with the same bytes, and a last line that says whether all are. A sheet in the list: two words of 32 bits, how long it and its
// answer are, then both; 4,294,967,295 ends the list.
#![tactic(auto)]

use bits::cores::u32_at;
use fit_answer::answer;
use word_list::cases::{BadList, Case};
use word_list::cores::replay;
use word_list::tally::{Count, Tally};

const STDIN: i32 = 0;

const STDOUT: i32 = 1;

// The turns at the list at most, its end among them.
const MOST: u64 = 65536;

// The two kinds of sheets.
const ACCEPTED: usize = 0;

const REFUSED: usize = 1;

fn main() {
    match replay::<2, _, _>(MOST, next, other) {
        Ok(tally) => summary(&tally),
        Err(at) => line(b"bad list at sheet ", at),
    }
}

// A sheet that is answered otherwise.
fn other(at: u64, _kind: usize) {
    line(b"another answer to sheet ", at);
}

// The next sheet of the list, answered. The list is bad where it is cut, or a part of it is longer than its room.
fn next() -> Result<Option<Case>, BadList> {
    let mut head = [0u8; 8];
    let got = io::read_full(STDIN, &mut head);
    if got < 4 {
        return Err(BadList {});
    }
    let sheet = u32_at(&head, 0);
    if sheet == 4294967295 {
        return Ok(None);
    }
    if got < 8 {
        return Err(BadList {});
    }
    let answer = u32_at(&head, 4);
    Ok(Some(called(sheet as usize, answer as usize)?))
}

// A sheet of n bytes with an answer of m.
fn called(n: usize, m: usize) -> Result<Case, BadList> {
    let mut sheet = [0u8; 65536];
    let mut told = [0u8; 16384];
    let sheet = fill(&mut sheet, n).ok_or(BadList {})?;
    let told = fill(&mut told, m).ok_or(BadList {})?;
    let kind = if begins(told) { ACCEPTED } else { REFUSED };
    Ok(Case::one(kind, answered(sheet, told)))
}

// The next n bytes of the list, in the first places of a room; none where the list ends before, or the room does.
fn fill(room: &mut [u8], n: usize) -> Option<&[u8]> {
    if n > room.len() {
        return None;
    }
    if io::read_full(STDIN, &mut room[..n]) < n {
        return None;
    }
    room.get(..n)
}

// Whether a text begins as the lines of an accepted night do.
fn begins(text: &[u8]) -> bool {
    text.first() == Some(&b'b')
}

// Whether the sheet is answered by what is told.
fn answered(sheet: &[u8], told: &[u8]) -> bool {
    let mut out = [0u8; 24576];
    match answer(sheet, &mut out) {
        Ok(text) => out.get(..text.bytes) == Some(told),
        Err(_) => false,
    }
}

fn summary(tally: &Tally<2>) {
    counts(b"accepted ", tally.counts[ACCEPTED]);
    counts(b"refused ", tally.counts[REFUSED]);
    let all = tally.total();
    if all.right == all.cases {
        io::write_all(STDOUT, b"all as the list says\n");
    }
}

fn counts(label: &[u8], c: Count) {
    io::write_all(STDOUT, label);
    io::print_decimal(STDOUT, c.right as u64);
    line(b" of ", c.cases as u64);
}

fn line(label: &[u8], n: u64) {
    io::write_all(STDOUT, label);
    io::print_decimal(STDOUT, n);
    io::write_all(STDOUT, b"\n");
}
