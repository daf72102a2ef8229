// The needs that are known without the plan, tested before anything is written.
#![tactic(auto)]

pub mod cores;
