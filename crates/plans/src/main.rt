// Replays the oracle's plans, on standard input, against the library: of each kind how many there are and how many come out as the
// list says, and a last line that says whether all do.
#![tactic(auto)]

mod call;
mod told;

use word_list::cores::replay;
use word_list::print::{bad, summary, wrong};

// The turns at the list at most, its end among them.
const MOST: u64 = 65536;

// The kinds from 1 on.
const NAMES: [&[u8]; 14] = [
    b"random",
    b"chain",
    b"hub",
    b"arrow",
    b"dense",
    b"grid",
    b"no links",
    b"late flags",
    b"few blocks",
    b"at the limits",
    b"one fault",
    b"two faults",
    b"lent buffers",
    b"check of a system",
];

// Kept: each program's own list, names and number of kinds; the work is `word_list`'s.
fn main() {
    match replay::<16, _, _>(MOST, call::next, |k, kind| wrong(b"case", &NAMES, k, kind)) {
        Ok(tally) => summary(&NAMES, &tally),
        Err(at) => bad(at),
    }
}
