//! The text of a run: a line for each event, and the end line; and the thread that a line names. What lines are made of is public, for other
//! texts of events: it is written in room that was taken before.
#![tactic(auto)]

pub mod answer;
pub mod append;
pub mod data_text;
mod event_line;
pub mod grown;
mod last_line;
mod names;
mod run_text;
pub mod sets;
mod trace;
mod turn;
pub mod what_word;

pub use names::NamesProcedures;
pub use run_text::RunText;
pub use trace::{end_line, line, text_with_tail};
pub use turn::thread_of;
