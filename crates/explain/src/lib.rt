//! What is said on the error stream of an answer of the program: what went wrong, and why; warnings on a script; and inputs and outputs
//! that keep what went through them.
#![tactic(auto)]

pub mod acts;
mod bad_line;
mod command;
pub mod explaining;
mod form;
mod lines;
mod name_fault;
mod operand;
mod operand_fault;
mod outline;
mod place_fault;
pub mod player;
pub mod recording;
mod report;
pub mod run;
mod run_told;
mod shown;
mod slip;
mod standing;
mod text_fault;
mod trace_told;
mod walk;
mod warnings;
mod words;
