//! What calls say of threads is what threads say: the statement in `specs/`, and in `proofs/` that each change of a thread and of a call
//! keeps it.
#![tactic(auto)]
