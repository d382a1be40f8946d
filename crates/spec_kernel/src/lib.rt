//! The written kernel, which is the definition of the product: states, acts, what follows each act, the step, and runs
//! of steps, in `specs/`; lemmas about them, in `proofs/`; and as traits what a kernel that keeps to it answers.
#![tactic(auto)]

pub mod answering;
pub mod what;
