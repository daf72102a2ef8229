// Replays the oracle's factorizations, on standard input, against the library: of each kind how many there are and how many come out
// as the list says, and a last line that says whether all do.
#![tactic(auto)]

mod call;
mod judge;
mod told;

use word_list::cores::replay;
use word_list::print::{bad, summary, wrong};

// The turns at the list at most, its end among them.
const MOST: u64 = 65536;

// The kinds from 1 on.
const NAMES: [&[u8]; 15] = [
    b"random",
    b"dense",
    b"shapes",
    b"few blocks",
    b"late flags",
    b"zero blocks and missing ones",
    b"rank deficient",
    b"at the threshold",
    b"small and large numbers",
    b"NaN and infinities",
    b"refused at a block",
    b"by hand",
    b"large",
    b"one fault or two",
    b"lent buffers",
];

// Kept: each program's own list, names and number of kinds; the work is `word_list`'s.
fn main() {
    match replay::<16, _, _>(MOST, call::next, |k, kind| wrong(b"case", &NAMES, k, kind)) {
        Ok(tally) => summary(&NAMES, &tally),
        Err(at) => bad(at),
    }
}
