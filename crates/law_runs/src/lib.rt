//! What holds of every run of the written kernel, unreferenced notices with it: statements in `specs/`, their proofs in `proofs/`.
#![tactic(auto)]

pub mod laws;
pub mod notice_laws;
