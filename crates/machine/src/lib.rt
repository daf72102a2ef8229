// The plain machine of document 01, module 7, its definitions (specs/) and theorems (proofs/) for every night. No code.
#![tactic(auto)]
