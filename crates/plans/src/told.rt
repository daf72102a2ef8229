// What a call answers, and whether the list says the same.
use bits::whole;
use checks::SystemError;
use plan::{Counts, PlanError};
use refusal::{Refusal, number_of};

// A refusal with the two places that it carries, 0 where it has none.
// Kept: a trait of the program's own: the errors are of other crates, and so would be a trait in `word_list`, which then could not be implemented here.
trait Carries {
    fn carried(&self) -> (usize, usize);
}

// The place, or the buffer that is short and its need.
impl Carries for PlanError {
    fn carried(&self) -> (usize, usize) {
        match self {
            PlanError::Blocks | PlanError::Stored => (0, 0),
            PlanError::Dimension { place }
            | PlanError::Starts { place }
            | PlanError::Row { place }
            | PlanError::Order { place }
            | PlanError::Permutation { place }
            | PlanError::Late { place } => (*place, 0),
            PlanError::Short { which, need } => (*which, *need),
        }
    }
}

// The place.
impl Carries for SystemError {
    fn carried(&self) -> (usize, usize) {
        match self {
            SystemError::Blocks
            | SystemError::Stored
            | SystemError::Values
            | SystemError::Tolerance => (0, 0),
            SystemError::Dimension { place }
            | SystemError::Starts { place }
            | SystemError::Row { place }
            | SystemError::Order { place }
            | SystemError::Permutation { place }
            | SystemError::Late { place } => (*place, 0),
        }
    }
}

// Whether the words of a case have the answer's number, and the two places that it carries.
fn says<T, E: Refusal + Carries>(h: &[u32; 26], answer: &Result<T, E>) -> bool {
    let (first, second) = match answer {
        Ok(_) => (0, 0),
        Err(e) => e.carried(),
    };
    h[17] == number_of(answer) && h[18] as usize == first && h[19] as usize == second
}

// Whether they have L's blocks and numbers, and the products.
fn counted(h: &[u32; 26], stored: usize, numbers: usize, products: u64) -> bool {
    h[21] as usize == stored && h[22] as usize == numbers && whole(h[23], h[24]) == products
}

pub fn says_plan(h: &[u32; 26], answer: &Result<Counts, PlanError>) -> bool {
    let (stored, numbers, products) = answer.map_or(
        (0, 0, 0),
        |c| (c.stored, c.numbers, c.products),
    );
    says(h, answer) && counted(h, stored, numbers, products)
}

pub fn says_system(h: &[u32; 26], answer: &Result<(), SystemError>) -> bool {
    says(h, answer) && counted(h, 0, 0, 0)
}
