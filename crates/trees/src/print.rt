// What the program writes.
use io::write_all;

const STDOUT: i32 = 1;

// The kinds from 1 on.
pub const NAMES: [&[u8]; 13] = [
    b"P1, P2",
    b"trees of plans",
    b"walks of plans",
    b"rows skipped",
    b"mark and stamps",
    b"any parents",
    b"at the limits",
    b"tree: one fault",
    b"tree: two faults",
    b"tree: lent buffers",
    b"walk: one fault",
    b"walk: two faults",
    b"walk: lent buffers",
];

// The list is bad.
pub fn bad() {
    write_all(STDOUT, b"bad list\n");
}
