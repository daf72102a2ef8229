// The plan, the needs that only the plan shows, the outputs.
#![tactic(auto)]

pub mod cores;
