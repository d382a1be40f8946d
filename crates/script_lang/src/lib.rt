//! Scripts: which text spells which script, the first bad line of a text that spells none, and the canonical text.
#![tactic(auto)]

pub mod bad;
pub mod bad_text;
pub mod blocks;
mod context;
mod copy;
mod declared;
mod draft;
pub mod item;
mod items;
pub mod laws;
mod names;
pub mod parse;
pub mod print;
mod same;
pub mod script;
mod text_lines;
mod text_reader;
mod variables;
pub mod worked;

pub use line_forms::line::{
    Body, Cond, FdArg, FdArgList, Line, PassArg, PassArgList, Piece, PieceList,
};
pub use line_forms::reason::Reason;
