// What a call answers, and whether the list says the same.
use bits::whole;
use factorize::{Counts, FactorizeError};
use refusal::number_of;
use replay::same;
use word_list::entry::float;

// What an answer carries.
#[derive(Clone, Copy)]
struct Carried {
    // The place, the buffer that is short, or the block.
    first: usize,
    // The need of that buffer, or the place in that block.
    second: usize,
    // The pivot or the condition.
    float: f64,
}

// Whether the words in front of a case say what the call answers.
pub fn says(h: &[u32; 44], answer: &Result<Counts, FactorizeError>) -> bool {
    let carried = carried_by(answer);
    let (stored, numbers, products) = answer.map_or(
        (0, 0, 0),
        |c| (c.stored, c.numbers, c.products),
    );
    h[29] == number_of(answer)
        && h[30] as usize == carried.first
        && h[31] as usize == carried.second
        && same(float(h[32], h[33]), carried.float)
        && h[34] as usize == stored
        && h[35] as usize == numbers
        && whole(h[36], h[37]) == products
}

fn carried_by(answer: &Result<Counts, FactorizeError>) -> Carried {
    match *answer {
        Ok(_)
        | Err(
            FactorizeError::Blocks
            | FactorizeError::Stored
            | FactorizeError::Values
            | FactorizeError::Tolerance,
        ) => carries(0, 0, 0.0),
        Err(
            FactorizeError::Dimension { place }
            | FactorizeError::Starts { place }
            | FactorizeError::Row { place }
            | FactorizeError::Order { place }
            | FactorizeError::Permutation { place }
            | FactorizeError::Late { place },
        ) => carries(place, 0, 0.0),
        Err(FactorizeError::Short { which, need }) => carries(which, need, 0.0),
        Err(
            FactorizeError::NotFinite {
                block,
                place,
                pivot,
            },
        ) => carries(block, place, pivot),
        Err(FactorizeError::Poor { block, condition }) => carries(block, 0, condition),
    }
}

fn carries(first: usize, second: usize, float: f64) -> Carried {
    Carried {
        first,
        second,
        float,
    }
}
