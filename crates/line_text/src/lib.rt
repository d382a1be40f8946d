//! The text of scripts below their commands: lines, words, names, numbers and strings, read and written.
#![tactic(auto)]

pub mod laws;
pub mod lines;
pub mod mode;
pub mod names;
pub mod number;
pub mod parts;
pub mod string;
pub mod words;
pub mod writer;
