// Document 01's nights by hand, as theorems of the written meanings: specs/Nights.antt has the table, proofs/Claim.antt the
// one claim that covers its rows. No code.
#![tactic(auto)]
