//! The lines of a script's bodies: commands with their operands, `repeat`, `if` and `end`. The types, the tables of
//! words and names, and in `specs/` which words spell which line, and its canonical words.
#![tactic(auto)]

pub mod copy_line;
pub mod enumerated;
pub mod keyword;
pub mod keyword_words;
pub mod line;
pub mod paths;
pub mod reason;
pub mod same_line;
mod search;
pub mod sets;
pub mod tables;
