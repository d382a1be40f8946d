//! Laws on lines: what is read is spelled, what is spelled is read, and what is written is read again.
#![tactic(auto)]

pub mod laws;
