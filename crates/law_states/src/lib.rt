//! The invariant of the written kernel, which every event keeps, and the arrows of calls: statements in `specs/`, their proofs
//! in `proofs/`.
#![tactic(auto)]

pub mod laws;
