// What a call tells, and whether the list says the same.
use elimination_tree::TreeError;
use reach::ReachError;
use refusal::{Refusal, number_of};

// A refusal with the two places that it carries, 0 where it has none.
// Kept: a trait of the program's own: the errors are of other crates, and so would be a trait in `word_list`, which then could not be implemented here.
pub trait Carries {
    fn carried(&self) -> (usize, usize);
}

// Whether the words of a call have the answer's number, and the two places that it carries: `accepted` where it is no refusal.
pub fn says<T, E: Refusal + Carries>(
    w: &[u32; 6],
    answer: &Result<T, E>,
    accepted: (usize, usize),
) -> bool {
    let (first, second) = match answer {
        Ok(_) => accepted,
        Err(e) => e.carried(),
    };
    w[3] == number_of(answer) && w[4] as usize == first && w[5] as usize == second
}

// The place, or the buffer that is short and its need.
impl Carries for TreeError {
    fn carried(&self) -> (usize, usize) {
        match self {
            TreeError::Blocks => (0, 0),
            TreeError::Starts { place } | TreeError::Row { place } | TreeError::Order { place } => {
                (*place, 0)
            }
            TreeError::Short { which, need } => (*which, *need),
        }
    }
}

// The place, and 1 where it is in the parents; the buffer that is short and its need.
impl Carries for ReachError {
    fn carried(&self) -> (usize, usize) {
        match self {
            ReachError::Blocks => (0, 0),
            ReachError::Starts { place }
            | ReachError::Row { place }
            | ReachError::Order { place }
            | ReachError::Past { place } => (*place, 0),
            ReachError::Parent { place } => (*place, 1),
            ReachError::Short { which, need } => (*which, *need),
        }
    }
}
