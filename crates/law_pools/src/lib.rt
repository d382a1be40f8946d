//! What server pools hold agrees with what threads, doors, calls and notices say: the statement in `specs/`, and in `proofs/` that
//! each change of a thread, a door, a call or a notice keeps it with the same change of the pools, and that settling is what pools
//! do.
#![tactic(auto)]
