// The passes that hold the columns of a factor against A's links: which column lacks a row that it is given, which lists a row that
// nothing gives it, and whose parent is not its first row. No table is lent: local arrays of 48 KiB at most.
#![tactic(auto)]

pub mod cores;
