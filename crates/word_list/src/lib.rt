// What the programs that replay the oracle's lists share: the words of a list, the room for its tables, the buffers that are lent, the
// tally, and what is printed. What is read or written no contract can say; the rest is promised.
#![tactic(auto)]

pub mod cases;
pub mod cores;
pub mod entry;
pub mod lent;
pub mod print;
pub mod room;
pub mod tally;
