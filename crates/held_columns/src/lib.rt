// Theorems alone: the flat lists of a factor hold the columns of the machine's last state, each block where the layout has it.
#![tactic(auto)]
