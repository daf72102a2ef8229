// The cases of a list, one after the other, where what reads and judges the next one can be called.
ghost use Rattle.std.specs.Prelude.{◌≡◌, ◌+◌, ◌⊎◌, List, length, IfOk, IfErr, Ok, Err, Some, None};
ghost use Rattle.std.specs.List.{FoldsTo};
ghost use Rattle.word_list.specs.declared.cases.Case.{Case};
ghost use Rattle.word_list.specs.declared.cases.BadList.{BadList};
ghost use Rattle.word_list.specs.Cases.{tallied};

use crate::cases::{BadList, Case};
use crate::tally::Tally;

// Every case to the end of the list, counted at its kind; `wrong` is told the number and the kind of each that comes out otherwise.
// Of a list that is bad, or has no end within `most` cases, the number of the case where that shows.
pub fn replay<const N: usize, C, W>(most: u64, mut next: C, mut wrong: W) -> Result<Tally<N>, u64>
where
    C: FnMut() -> Result<Option<Case>, BadList>,
    W: FnMut(u64, usize),
    requires next { C.IsAlwaysCallable next }
    requires wrong { W.IsAlwaysCallable wrong }
    ensures counts { IfOk result (λ tally. (cases : List Case) × (last : C) × FoldsTo (λ p x q. C.step p (Ok (Some x)) q) next cases last × ((end : C) × C.step last (Ok None) end) × (tally.counts ≡ tallied N cases)) }
    ensures bad { IfErr result (λ at. (cases : List Case) × (last : C) × FoldsTo (λ p x q. C.step p (Ok (Some x)) q) next cases last × (((at ≡ length cases + 1) × (e : BadList) × (end : C) × C.step last (Err e) end) ⊎ ((at ≡ most) × (length cases ≡ most)))) }
{
    let mut tally = Tally::new();
    for k in 0..most {
        let case = next();
        match case {
            Err(_) => return Err(k + 1),
            Ok(None) => return Ok(tally),
            Ok(Some(case)) => {
                tally.add(case.kind, case.count);
                if case.count.right < case.count.cases {
                    wrong(k + 1, case.kind);
                }
            }
        }
    }
    Err(most)
}
