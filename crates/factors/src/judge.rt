// Whether every lent place is afterwards what the list says. Of the words in front of a case, 38 to 42 have what an answer fills: L's
// blocks, L's numbers, the numbers of the diagonal factors, the scalars, the numbers of the working column; 43 is 0 where all is
// unchanged, 1 where only scratch is written, 2 where the outputs are too, 3 where their floats are NaN.
use crate::call::NUMBERS;
use scalar::not_a_number;
use word_list::lent::{output, written as told};
use word_list::room::{BLOCKS, STORED};

// How many places of an output are written.
fn written(h: &[u32; 44], need: usize) -> usize {
    if h[43] < 2 { 0 } else { need }
}

// How many places of a scratch buffer end as 0.
// Kept: `plans` has it too, by another word of its list.
pub fn cleared(h: &[u32; 44], need: usize) -> usize {
    if h[43] == 0 { 0 } else { need }
}

// L's numbers, the diagonal factors and d come next in the list.
pub fn floats(
    h: &[u32; 44],
    l_values: &[f64; NUMBERS],
    diag: &[f64; NUMBERS],
    d: &[f64; NUMBERS],
) -> bool {
    let every = (h[43] == 3).then_some(not_a_number());
    let in_l = told(l_values, written(h, h[39] as usize), every);
    let in_diag = told(diag, written(h, h[40] as usize), every);
    let in_d = told(d, written(h, h[41] as usize), every);
    in_l && in_diag && in_d
}

// The plan's tables come next in the list.
pub fn tables(
    h: &[u32; 44],
    order: &[u32; BLOCKS],
    parents: &[u32; BLOCKS],
    l_starts: &[u32; BLOCKS],
    l_rows: &[u32; STORED],
    l_offsets: &[u32; STORED],
) -> bool {
    let blocks = written(h, h[0] as usize);
    let starts = written(h, h[0] as usize + 1);
    let stored = written(h, h[38] as usize);
    let ends = written(h, h[38] as usize + 1);
    let a = output(order, blocks);
    let b = output(parents, blocks);
    let c = output(l_starts, starts);
    let d = output(l_rows, stored);
    let e = output(l_offsets, ends);
    a && b && c && d && e
}
