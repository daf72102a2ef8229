// A block shown as its numbers with its height and width: a struct that holds a slice. The work is done by functions on the
// slice and the sizes, which take the struct's fields first and in their order. The functions over the struct take it apart
// and call those.
// Kept: functions and no methods, each in two forms, on the slice and on the struct: document 01 asks for the view with its accessor and `sub_mat_plus_vec_inplace` over it, and
// the page of the promises names both.
#![tactic(auto)]

ghost use Rattle.std.specs.Prelude.{◌≡◌, ◌*◌, ◌<◌, length, OnOk};
ghost use Rattle.refusal.specs.Shaped.{told, Answers};
ghost use Rattle.kernel_vector.specs.Vector.{sub_mat_plus_vec, vector_verdict};
ghost use Rattle.view.specs.View.{index_check, entry_verdict, entry_of, told_looked};

use refusal::{ShapeError, area, size};
use scalar::cores::entry;

// A block: its numbers, column by column, its height and its width.
#[derive(Clone, Copy)]
pub struct BlockView<'a> {
    pub data: &'a [f64],
    pub height: usize,
    pub width: usize,
}

// ---- on the slice and the sizes

// The number in row r and column c. The places of a refusal are, for 2, 0 for the height and 1 for the width; for 12, 0 for
// the slice, 1 for the row and 2 for the column.
pub fn entry_of(
    data: &[f64],
    height: usize,
    width: usize,
    r: usize,
    c: usize,
) -> Result<f64, ShapeError>
    ensures { told_looked result ≡ entry_of «data».now height width r c }
{
    entry_shapes(height, width, data.len(), r, c)?;
    let value = entry(data, height, width, r, c);
    Ok(value)
}

// y := y - A b, with A the block. The places are the kernel's: of the slices, y is 0, the block 1 and b 2.
pub fn minus_product(
    data: &[f64],
    height: usize,
    width: usize,
    b: &[f64],
    y: &mut [f64],
) -> Result<(), ShapeError>
    ensures { Answers (vector_verdict height width (length y.old) (length «data».now) (length b.now)) y.old (sub_mat_plus_vec height width y.old «data».now b.now) result y.new }
{
    kernel_vector::sub_mat_plus_vec_inplace(height, width, y, data, b)
}

// The shapes of a look at one entry.
#[tactic(auto, using(refusal::proofs::Laws::in_order), unfolding(crate::specs::View::entry_verdict))]
fn entry_shapes(
    height: usize,
    width: usize,
    count: usize,
    r: usize,
    c: usize,
) -> Result<(), ShapeError>
    ensures verdict { told result ≡ entry_verdict height width count r c }
    ensures fits { OnOk result ((r < height) × (c < width) × (count ≡ height * width)) }
{
    size(0, 0, height)?;
    size(0, 1, width)?;
    area(0, height, width, count)?;
    below(1, r, height)?;
    below(2, c, width)
}

// The index `i` passes below `n`.
fn below(place: usize, i: usize, n: usize) -> Result<(), ShapeError>
    ensures check { told result ≡ index_check place i n }
    ensures fits { OnOk result (i < n) }
{
    if i < n {
        return Ok(());
    }
    Err(ShapeError::Mismatch { place })
}

// ---- on the view

// The view of a block whose numbers stand in `numbers`.
pub fn block<'a>(numbers: &'a [f64], height: usize, width: usize) -> BlockView<'a>
    ensures { (result.data ≡ numbers.entry) × ((result.height ≡ height) × (result.width ≡ width)) }
{
    BlockView {
        data: numbers,
        height,
        width,
    }
}

// The number in row r and column c.
pub fn get<'a>(v: BlockView<'a>, r: usize, c: usize) -> Result<f64, ShapeError>
    ensures { told_looked result ≡ entry_of v.entry.data.now v.entry.height v.entry.width r c }
{
    entry_of(v.data, v.height, v.width, r, c)
}

// y := y - A b, with A the block shown.
pub fn sub_mat_plus_vec_inplace<'a, 'b, 'c>(
    v: BlockView<'a>,
    b: &'b [f64],
    y: &'c mut [f64],
) -> Result<(), ShapeError>
    ensures { Answers (vector_verdict v.entry.height v.entry.width (length y.old) (length v.entry.data.now) (length b.now)) y.old (sub_mat_plus_vec v.entry.height v.entry.width y.old v.entry.data.now b.now) result y.new }
{
    minus_product(v.data, v.height, v.width, b, y)
}

// The same for who has the numbers and the sizes: the view is made here.
pub fn sub_block_times_vec(
    numbers: &[f64],
    height: usize,
    width: usize,
    b: &[f64],
    y: &mut [f64],
) -> Result<(), ShapeError>
    ensures { Answers (vector_verdict height width (length y.old) (length numbers.now) (length b.now)) y.old (sub_mat_plus_vec height width y.old numbers.now b.now) result y.new }
{
    sub_mat_plus_vec_inplace(block(numbers, height, width), b, y)
}
