//! What a child process gets as it begins, and what its parent's callers lose (fork(2)): rows of a table, calls that are left, and
//! the binding of its first thread.
#![tactic(auto)]

pub mod forking;
