// What a program that replays a list writes. What is written no contract can say.
use crate::tally::{Count, Tally};
use io::{print_decimal, write_all};

const STDOUT: i32 = 1;

// How many cases, and how many come out as listed: the rest of a kind's line.
pub fn counts(count: Count)
    ensures { Unit {0} }
{
    write_all(STDOUT, b": cases ");
    print_decimal(STDOUT, count.cases as u64);
    write_all(STDOUT, b" match ");
    print_decimal(STDOUT, count.right as u64);
    write_all(STDOUT, b"\n");
}

// The line for all kinds, and whether all cases come out as listed.
pub fn verdict(all: Count)
    ensures { Unit {0} }
{
    write_all(STDOUT, b"all");
    counts(all);
    if all.right == all.cases {
        write_all(STDOUT, b"all match\n");
    } else {
        write_all(STDOUT, b"not all match\n");
    }
}

// The list is bad at case k.
pub fn bad(k: u64)
    ensures { Unit {0} }
{
    write_all(STDOUT, b"bad list at case ");
    print_decimal(STDOUT, k);
    write_all(STDOUT, b"\n");
}

// The name of a kind, of the names from 1 on: a kind past the last has the last name.
// Kept: each program has its own names, in a table that the list's numbers count.
pub fn name(names: &[&[u8]], kind: usize)
    ensures { Unit {0} }
{
    if let Some(last) = names.len().checked_sub(1) {
        write_all(STDOUT, names[last.min(kind.saturating_sub(1))]);
    }
}

// A case, or what else the list counts, comes out otherwise than listed.
// Kept: the list's number of a kind, which `name` looks up.
pub fn wrong(what: &[u8], names: &[&[u8]], k: u64, kind: usize)
    ensures { Unit {0} }
{
    write_all(STDOUT, b"wrong: ");
    write_all(STDOUT, what);
    write_all(STDOUT, b" ");
    print_decimal(STDOUT, k);
    write_all(STDOUT, b", ");
    name(names, kind);
    write_all(STDOUT, b"\n");
}

// A line for each kind that has a name, one for all, and the verdict.
pub fn summary<const N: usize>(names: &[&[u8]], tally: &Tally<N>)
    ensures { Unit {0} }
{
    for (name, count) in names.iter().zip(tally.counts.iter().skip(1)) {
        write_all(STDOUT, name);
        counts(*count);
    }
    verdict(tally.total());
}
