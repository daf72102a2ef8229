// The report of an exported call: three places for what its answer carries, written in full by every call.
#![tactic(auto)]

ghost use Rattle.std.specs.Prelude.{[], ◌∷◌, ◌≡◌};

// The report is written, and the number handed back.
// Kept: a number, which is what the C interface answers.
pub fn carry(told: &mut [u64; 3], number: u32, first: u64, second: u64, third: u64) -> u32
    ensures { (result ≡ number) × (told.new ≡ first ∷ second ∷ third ∷ []) }
{
    *told = [first, second, third];
    number
}
