//! The generated load of a number of calls: its script, and the line that tells of a run of it.
#![tactic(auto)]

pub mod laws;
mod load_script;
mod summary_line;

pub use load_script::{CALLS_MAX, generate};
pub use summary_line::{SummaryLine, summary};
