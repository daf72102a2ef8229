// The cases of a list, and what came of each.
ghost use Rattle.std.specs.Prelude.{◌≡◌, ◌<◌, IfOk, IfSome, cond};

use crate::entry::Entry;
use crate::tally::Count;

// What a case of a list came to.
// Kept: the list's number of a kind. It says where the case is counted, and a list may have kinds that its program has no name for.
#[derive(Clone, Copy)]
pub struct Case {
    pub kind: usize,
    pub count: Count,
}

impl Case {
    // One call, and whether it comes out as listed.
    // Kept: the list's number of a kind, as in `Case`.
    pub fn one(kind: usize, is_right: bool) -> Case
        ensures { result ≡ record { kind = kind; count = record { cases = 1; right = cond is_right 1 0 } } }
    {
        Case {
            kind,
            count: Count {
                cases: 1,
                right: usize::from(is_right),
            },
        }
    }
}

// A list that ends early, or a case that does not fit.
#[derive(Clone, Copy)]
pub struct BadList {}

// The kind of the case that comes next; none is the word that ends the list.
pub fn kind() -> Result<Option<usize>, BadList>
    ensures { IfOk result (λ next. IfSome next (λ kind. 0 < kind)) }
{
    match u32::next() {
        None => Err(BadList {}),
        Some(0) => Ok(None),
        Some(kind) => Ok(Some(kind as usize)),
    }
}
