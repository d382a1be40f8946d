//! A run of a script: its machines, the kernel, the tables of name services and the journal of events. One turn takes one
//! event; `Sys` is a run in any order of turns, `Playing` one in the order that a schedule gives.
#![tactic(auto)]

pub mod asked;
mod kernel_looks;
pub mod laws;
mod name_tables;
mod opening;
pub mod playing;
mod run;
pub mod sys;
mod threads;
mod turn;
