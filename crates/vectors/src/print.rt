// What the program writes.
use io::{print_decimal, write_all};
use word_list::tally::{Count, Tally};

const STDOUT: i32 = 1;

// The functions' names in the source, op by op from 1 on, each with a space.
const NAMES: [&[u8]; 20] = [
    b"lower_solve_inplace ",
    b"lower_matsolve_inplace ",
    b"lower_transpose_solve_inplace ",
    b"lower_transpose_matsolve_inplace ",
    b"diag_solve_inplaced ",
    b"diag_matsolve_inplaced ",
    b"lower_right_solve_inplace ",
    b"lower_transpose_rightsolve_inplace ",
    b"diag_right_matsolve_inplace ",
    b"sub_mat_diag_mat_t_inplace ",
    b"add_mat_diag_mat_t_inplace ",
    b"sub_mat_plus_vec_inplace ",
    b"sub_mat_transpose_plus_vec_in_place ",
    b"ldlt_decompose_inplace ",
    b"ldlt_solve_inplace ",
    b"ldlt_matsolve_inplace ",
    b"ldlt_right_matsolve_inplace ",
    b"decompose ",
    b"solve_inplace_vec ",
    b"right_solve_inplace ",
];

// A line for each op, and one for all.
pub fn summary(tally: &Tally<21>) {
    for (name, count) in NAMES.iter().zip(tally.counts.iter().skip(1)) {
        write_all(STDOUT, name);
        counts(*count);
    }
    counts(tally.total());
}

// Kept: the list's number of a function, which is printed.
pub fn wrong(k: u64, op: usize) {
    write_all(STDOUT, b"wrong: case ");
    print_decimal(STDOUT, k);
    write_all(STDOUT, b" op ");
    print_decimal(STDOUT, op as u64);
    write_all(STDOUT, b"\n");
}

fn counts(count: Count) {
    write_all(STDOUT, b"cases ");
    print_decimal(STDOUT, count.cases as u64);
    write_all(STDOUT, b" wrong ");
    print_decimal(STDOUT, count.cases.saturating_sub(count.right) as u64);
    write_all(STDOUT, b"\n");
}
