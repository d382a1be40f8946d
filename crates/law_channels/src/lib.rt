//! What holds of pipes and event ports in every run of the written kernel, what refers to objects, and what an act changes of them:
//! statements in `specs/`, their proofs in `proofs/`.
#![tactic(auto)]

pub mod changes;
pub mod laws;
