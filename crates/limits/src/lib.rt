// This crate has no code: proofs/ has problems at the listing program's limits, worked from the definitions of the calculus and of the listing.
#![tactic(auto)]
