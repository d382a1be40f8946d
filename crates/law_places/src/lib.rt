//! What is said of a place in a run of the written kernel, and what is known of each: statements in `specs/`, their proofs in
//! `proofs/`.
#![tactic(auto)]

pub mod laws;
