#![tactic(auto)]

// Document 01 as definitions: see specs/. This crate has no code.
