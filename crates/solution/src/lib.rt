// What the solve of module 8 means: definitions and laws alone.
#![tactic(auto)]
