//! The verdict on the text of a history: whether each line is the one that the kernel gives at its place. Definitions stand in `specs/`.
#![tactic(auto)]

mod check_text;
mod ends;
mod events;
mod finding;
pub mod laws;
mod lines;
mod opening;
mod text;
mod turns;
mod verdict;
mod walk;

pub use check_text::check;
pub use text::text_of_verdict;
pub use verdict::Verdict;
