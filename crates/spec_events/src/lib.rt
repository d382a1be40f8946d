//! What the events of a run show: those of the written kernel, with the outputs of tasks and the replies of name tables. Definitions, in
//! `specs/`, and lemmas about them, in `proofs/`. There is no code.
#![tactic(auto)]
