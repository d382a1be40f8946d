//! Where a thread stands in its script, and which request it makes next.
#![tactic(auto)]

mod data;
mod fill;
mod known;
mod lines;
pub mod machine;
mod place;
mod request;
mod stack;
mod variable;
mod variables;
