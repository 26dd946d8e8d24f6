// This crate has no code: specs/ has the definitions and statements, proofs/ the laws and theorems.
#![tactic(auto)]
