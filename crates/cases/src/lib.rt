// This crate has no code: proofs/ has tables of examples, worked from the definitions of calculus.
#![tactic(auto)]
