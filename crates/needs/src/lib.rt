// 11 of document 01: of the buffers that a call is lent, the first that is shorter than its need. A call's needs are one list.
#![tactic(auto)]

ghost use Rattle.std.specs.Prelude.{◌≡◌, ◌≤◌, OnOk};
ghost use Rattle.refusal.specs.Refusal.{verdict};
ghost use Rattle.refusal.specs.Check.{need_check};
ghost use Rattle.needs.specs.Needs.{told, told_error, lent_from, need_checks, AllMet};

use refusal::Refusal;

// 11: which buffer is short, counted from 0 in the order of the call, and its need.
#[derive(Clone, Copy, Debug, PartialEq, Eq)]
pub struct ShortBuffer {
    pub which: usize,
    pub need: usize,
}

impl Refusal for ShortBuffer {
    ghost told = { told_error };

    fn number(&self) -> u32 {
        11
    }
}

// Buffer `which` is as long as its need.
pub fn enough(which: usize, have: usize, need: usize) -> Result<(), ShortBuffer>
    ensures says { told result ≡ need_check which have need }
    ensures met { OnOk result (need ≤ have) }
{
    if have < need {
        return Err(ShortBuffer { which, need });
    }
    Ok(())
}

// The lengths of a call's buffers beside their needs, both in the order of the call.
pub fn first_short(have: &[usize], need: &[usize]) -> Result<(), ShortBuffer>
    ensures says { told result ≡ verdict (need_checks (lent_from 0 have.now need.now)) }
    ensures met { OnOk result (AllMet (lent_from 0 have.now need.now)) }
{
    for i in 0..have.len().min(need.len()) {
        enough(i, have[i], need[i])?;
    }
    Ok(())
}
