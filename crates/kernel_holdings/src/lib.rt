//! What refers to objects: the descriptor tables of processes, the names in the file system, and the calls with what is in transit
//! with them; and how many references each object has, counted as they come and go.
#![tactic(auto)]

mod fallen;
pub mod holdings;
mod leaving;
mod lowered;
pub mod tables;
