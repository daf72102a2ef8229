// Replays the oracle's list, on standard input, against the library: how many cases each function has, and how many come out
// other than the list says.
#![tactic(auto)]

mod calls;
mod list;
mod print;

use word_list::cores::replay;
use word_list::print::bad;

// The turns at the list at most, its end among them.
const MOST: u64 = 4096;

fn main() {
    match replay::<21, _, _>(MOST, list::next, print::wrong) {
        Ok(tally) => print::summary(&tally),
        Err(at) => bad(at),
    }
}
