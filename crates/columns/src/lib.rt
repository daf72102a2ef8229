// The searches of the checks of tables that read the row table: its rows, their order, the areas of its blocks.
#![tactic(auto)]

pub mod cores;
