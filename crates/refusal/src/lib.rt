// What a refusal of any call says; the checks of sizes and of the lengths of slices that calls on one block make, 2 and 12 of
// document 01, and the refusals of a call that has no others. `specs/Refusal.antt` has all sixteen.
#![tactic(auto)]

ghost use Rattle.std.specs.Prelude.{◌≡◌, ℕ, eqb, ◌*◌, ◌≤◌, OnOk};
ghost use Rattle.refusal.specs.Refusal.{Told, number, number_by};
ghost use Rattle.refusal.specs.Check.{size_check, area_check};
ghost use Rattle.refusal.specs.Shaped.{told, told_error};

// The refusals of a call: each has document 01's number.
pub trait Refusal {
    // The refusal in document 01's words.
    ghost told: { Self → Told };

    fn number(&self) -> u32
        ensures { result ≡ number (told self.now) };
}

// The number of an answer, 0 where the call is accepted.
pub fn number_of<T, E: Refusal>(answer: &Result<T, E>) -> u32
    ensures { result ≡ number_by E.told answer.now }
{
    match answer {
        Ok(_) => 0,
        Err(refusal) => refusal.number(),
    }
}

// The refusals of a call that refuses 2 and 12 alone. Places count from 0 in the order of the call: under 2 among its sizes,
// under 12 among its slices.
#[derive(Clone, Copy, Debug, PartialEq, Eq)]
pub enum ShapeError {
    // 2
    Dimension { place: usize },
    // 12
    Mismatch { place: usize },
}

impl Refusal for ShapeError {
    ghost told = { told_error };

    fn number(&self) -> u32 {
        match self {
            ShapeError::Dimension { place: _ } => 2,
            ShapeError::Mismatch { place: _ } => 12,
        }
    }
}

// The size `n` passes from `least` to 16.
pub fn size(least: usize, place: usize, n: usize) -> Result<(), ShapeError>
    ensures check { told result ≡ size_check least place n }
    ensures fits { OnOk result ((least ≤ n) × (n ≤ 16)) }
{
    if n < least {
        return Err(ShapeError::Dimension { place });
    }
    if n > 16 {
        return Err(ShapeError::Dimension { place });
    }
    Ok(())
}

// Whether a slice of `count` numbers holds a block of that height and width exactly.
pub fn is_area(count: usize, height: usize, width: usize) -> bool
    ensures { result ≡ eqb count (height * width) }
{
    height.checked_mul(width) == Some(count)
}

// A slice of `count` numbers passes where it holds the block exactly.
pub fn area(place: usize, height: usize, width: usize, count: usize) -> Result<(), ShapeError>
    ensures check { told result ≡ area_check place height width count }
    ensures fits { OnOk result (count ≡ height * width) }
{
    if is_area(count, height, width) {
        return Ok(());
    }
    Err(ShapeError::Mismatch { place })
}
