//! Whether a trace is the text of a legal run of a script: the two parts of an input, the verdict, and how it is written.
#![tactic(auto)]

mod input;
mod text;
mod walk;

pub use input::parts;
pub use text::text_of_verdict;
pub use walk::check;
