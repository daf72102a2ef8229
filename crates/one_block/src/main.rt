// A night whose system is one block, solved by the dense decomposition: the two-block example of document 01 put into one
// block, then a sensor with no evidence, then a NaN that lies under a dropped pivot, then a pivot that is not finite.
#![tactic(auto)]

use dense_ldlt::ldlt_decompose_inplace;
use dense_solve::ldlt_solve_inplace;
use digits::cores::{Writer, bits_of};
use refusal::Refusal;

fn main() {
    let infinity = 1.0 / 0.0;
    let nan = 0.0 / 0.0;
    // A = [4 2; 2 5], b = (8, 8)
    night(&mut [4.0, 2.0, 0.0, 5.0], &mut [0.0; 2], &mut [8.0, 8.0]);
    // the second sensor heard nothing
    night(&mut [4.0, 0.0, 0.0, 0.0], &mut [0.0; 2], &mut [8.0, 0.0]);
    // the first sensor is silent, so what stands under its pivot is not used
    night(&mut [0.0, nan, 0.0, 1.0], &mut [0.0; 2], &mut [3.0, 2.0]);
    night(
        &mut [4.0, 0.0, 0.0, infinity],
        &mut [0.0; 2],
        &mut [8.0, 8.0],
    );
}

// Decomposes A, of two rows and columns, solves A x = b in place and prints the rank and each scalar's number, bits and mark.
fn night(a: &mut [f64; 4], d: &mut [f64; 2], x: &mut [f64; 2]) {
    let outcome = ldlt_decompose_inplace(2, a, d, 1e-12);
    match outcome {
        Ok(r) => {
            io::write_all(1, b"scalars 2 rank ");
            io::print_decimal(1, r.rank as u64);
            io::write_all(1, b"\n");
        }
        Err(refusal) => return refuse(&refusal),
    }
    let solved = ldlt_solve_inplace(2, a, d, x);
    if let Err(refusal) = solved {
        return refuse(&refusal);
    }
    line(0, x[0], d[0]);
    line(1, x[1], d[1]);
}

fn refuse<R: Refusal>(refusal: &R) {
    io::write_all(1, b"refused ");
    io::print_decimal(1, u64::from(refusal.number()));
    io::write_all(1, b"\n");
}

// A scalar is silent where its stored pivot is 0.0, and heard elsewhere.
fn line(i: u64, x: f64, d: f64) {
    io::print_decimal(1, i);
    io::write_all(1, b" ");
    print_bits(bits_of(x));
    if d == 0.0 {
        io::write_all(1, b" silent\n");
    } else {
        io::write_all(1, b" heard\n");
    }
}

// Sixteen upper-case hexadecimal digits.
// Kept: the digits are those of crate `digits`, which an answer to a sheet is proved to have, and no `Display` has them.
fn print_bits(bits: u64) {
    let mut text = [0u8; 16];
    let mut w = Writer {
        out: &mut text,
        at: 0,
    };
    w.hex(bits);
    io::write_all(1, &text);
}
