//! The commands, from the words of the command line to the exit status.
#![tactic(auto)]

pub mod check;
mod frame;
pub mod laws;
pub mod load;
pub mod play;
pub mod reply;
pub mod run;
pub mod script_in;
pub mod show;
pub mod status;
pub mod top;
mod words;
