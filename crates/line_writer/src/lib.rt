//! A line as text: its canonical words, put after a text.
#![tactic(auto)]

pub mod put_line;
mod put_lines;
mod put_operands;
