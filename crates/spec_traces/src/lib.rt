//! Which texts are traces of legal runs, what is found where one is not, and how an input holds a script and a trace:
//! definitions in `specs/`. A trace is the text of a run: a line for each event, then a line that tells how the run ended, and
//! after a run on threads a line `tail N`. No code but the type of a verdict.
#![tactic(auto)]

pub mod laws;
pub mod verdict;
