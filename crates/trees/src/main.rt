// Replays the oracle's trees and walks, on standard input, against the library: of each kind how many there are and how many come out as
// the list says, and a last line that says whether all do.
#![tactic(auto)]

mod call;
mod print;
mod told;

use word_list::cores::replay;
use word_list::print::{summary, wrong};

// The turns at the list at most, its end among them.
const MOST: u64 = 65536;

fn main() {
    match replay::<16, _, _>(
        MOST,
        call::next,
        |k, kind| wrong(b"turn", &print::NAMES, k, kind),
    ) {
        Ok(tally) => summary(&print::NAMES, &tally),
        Err(_) => print::bad(),
    }
}
