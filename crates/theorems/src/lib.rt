#![tactic(auto)]

// What is proved of the definitions alone: see specs/ and proofs/. This crate has no code.
