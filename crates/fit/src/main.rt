// Reads one sheet from standard input and prints its answer: the lines of an accepted night, or `refused` and the number.
#![tactic(auto)]

use fit_answer::answer;

const STDIN: i32 = 0;

const STDOUT: i32 = 1;

// Reads at the most of what follows a sheet.
const MOST: u64 = 1099511627776;

fn main() {
    // One byte more than the longest good sheet: whatever follows, these decide (crate sheet, proofs/Enough).
    let mut sheet = [0u8; 50705];
    let read = io::read_full(STDIN, &mut sheet);
    if read == 50705 {
        skip();
    }
    if let Some(sheet) = sheet.get(..read) {
        print(sheet);
    }
}

// The rest of the input, so that whoever writes it can end.
fn skip() {
    for _ in 0..MOST {
        if !more() {
            return;
        }
    }
}

fn more() -> bool {
    let mut chunk = [0u8; 4096];
    io::read_full(STDIN, &mut chunk) > 0
}

// The answer to the bytes of a sheet. The longest has a first line of at most 143 bytes and 512 lines of at most 45.
fn print(sheet: &[u8]) {
    let mut out = [0u8; 24576];
    if let Ok(text) = answer(sheet, &mut out) {
        if let Some(text) = out.get(..text.bytes) {
            io::write_all(STDOUT, text);
        }
    }
}
