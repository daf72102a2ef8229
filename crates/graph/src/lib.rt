// The elimination theory: definitions (specs/) and theorems (proofs/) for every pattern. No code.
#![tactic(auto)]
