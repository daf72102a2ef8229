// What a call on one block answers, as the oracle's list writes it: a number, indices, floats.
#![tactic(auto)]

ghost use Rattle.std.specs.Prelude.{◌≡◌, true, [], ◌∷◌, ◌<◌};
ghost use Rattle.refusal.specs.Refusal.{tells};
ghost use Rattle.refusal.specs.Shaped.{told};
ghost use Rattle.dense_pivots.specs.Pivots.{told_result};
ghost use Rattle.dense_ldlt.specs.Decompose.{told as told_dense};
ghost use Rattle.block_diag_ldlt.specs.Block.{told as told_block};
ghost use Rattle.replay.specs.Words.{word_at, word_float};
ghost use Rattle.vector_answers.specs.Answer.{spelled, Listed};

use block_diag_ldlt::DecomposeError;
use dense_ldlt::LdltError;
use dense_pivots::{Definiteness, LdltResult};
use refusal::{ShapeError, number_of};
use replay::{count, float, on, same};

// Kept: the list has a word for the number and for each count, and `matches` compares those words; an `Option` or a list would be counted for it.
#[derive(Clone, Copy)]
pub struct Told {
    // The refusal's number, 0 for none.
    pub number: usize,
    // How many of the next two count.
    pub indices: usize,
    pub first: usize,
    pub second: usize,
    // Whether the last counts: 1 or 0.
    pub floats: usize,
    pub float: f64,
}

// ---- an answer, by its number in document 01
// Kept: the number itself, which the list has as a word.

// With a number alone.
fn bare(number: usize) -> Told
    ensures { spelled result ≡ tells number [] [] }
{
    Told {
        number,
        indices: 0,
        first: 0,
        second: 0,
        floats: 0,
        float: 0.0,
    }
}

// With a number and a place.
fn placed(number: usize, place: usize) -> Told
    ensures { spelled result ≡ tells number (place ∷ []) [] }
{
    Told {
        number,
        indices: 1,
        first: place,
        second: 0,
        floats: 0,
        float: 0.0,
    }
}

// With a number, two indices and a float.
fn full(number: usize, first: usize, second: usize, float: f64) -> Told
    ensures { spelled result ≡ tells number (first ∷ second ∷ []) (float ∷ []) }
{
    Told {
        number,
        indices: 2,
        first,
        second,
        floats: 1,
        float,
    }
}

impl From<Result<(), ShapeError>> for Told {
    ghost from_gives = { λ s t. spelled t ≡ told s };

    fn from(s: Result<(), ShapeError>) -> Told {
        let number = number_of(&s) as usize;
        match s {
            Ok(_) => bare(number),
            Err(ShapeError::Dimension { place } | ShapeError::Mismatch { place }) => placed(
                number, place,
            ),
        }
    }
}

impl From<Result<LdltResult, LdltError>> for Told {
    ghost from_gives = { λ r t. spelled t ≡ told_dense r };

    fn from(r: Result<LdltResult, LdltError>) -> Told {
        let number = number_of(&r) as usize;
        match r {
            Ok(k) => Told::from(k),
            Err(LdltError::Tolerance) => bare(number),
            Err(LdltError::Dimension { place } | LdltError::Mismatch { place }) => placed(
                number, place,
            ),
            Err(LdltError::NotFinite { place, pivot }) => full(number, 0, place, pivot),
        }
    }
}

impl From<Result<LdltResult, DecomposeError>> for Told {
    ghost from_gives = { λ r t. spelled t ≡ told_block r };

    fn from(r: Result<LdltResult, DecomposeError>) -> Told {
        let number = number_of(&r) as usize;
        match r {
            Ok(k) => Told::from(k),
            Err(DecomposeError::Tolerance) => bare(number),
            Err(DecomposeError::Dimension { place } | DecomposeError::Mismatch { place }) => placed(
                number, place,
            ),
            Err(DecomposeError::NotFinite { place, pivot }) => full(number, 0, place, pivot),
            Err(DecomposeError::Poor { condition }) => Told {
                number,
                indices: 1,
                first: 0,
                second: 0,
                floats: 1,
                float: condition,
            },
        }
    }
}

impl From<LdltResult> for Told {
    ghost from_gives = { λ k t. spelled t ≡ told_result k };

    fn from(k: LdltResult) -> Told {
        match k.definiteness {
            Definiteness::PositiveDefinite => full(0, k.rank, 0, k.pivot_condition),
            Definiteness::PositiveSemiDefinite => full(0, k.rank, 1, k.pivot_condition),
            Definiteness::Indefinite => full(0, k.rank, 2, k.pivot_condition),
        }
    }
}

// Whether the answer at `at` is t.
pub fn matches(w: &[u8], at: usize, t: Told) -> bool
    ensures { (result ≡ true → Listed w.now at t) × (Listed w.now at t → result ≡ true) }
{
    if count(w, at) != t.number {
        return false;
    }
    if count(w, on(at, 1)) != t.indices {
        return false;
    }
    if !index_is(w, on(at, 2), t.indices, 0, t.first) {
        return false;
    }
    if !index_is(w, on(at, 3), t.indices, 1, t.second) {
        return false;
    }
    let floats = on(at, on(2, t.indices));
    if count(w, floats) != t.floats {
        return false;
    }
    float_is(w, on(floats, 1), t.floats, t.float)
}

// Whether index k, where there are more than k, stands at `at`.
fn index_is(w: &[u8], at: usize, indices: usize, k: usize, index: usize) -> bool
    ensures { (result ≡ true → k < indices → word_at w.now at ≡ index) × ((k < indices → word_at w.now at ≡ index) → result ≡ true) }
{
    if k < indices {
        return count(w, at) == index;
    }
    true
}

// Whether the float, where there is one, stands at `at`.
fn float_is(w: &[u8], at: usize, floats: usize, x: f64) -> bool
    ensures { (result ≡ true → 0 < floats → word_float w.now at ≡ x) × ((0 < floats → word_float w.now at ≡ x) → result ≡ true) }
{
    if 0 < floats {
        return same(float(w, at), x);
    }
    true
}
