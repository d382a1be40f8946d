//! Reading a line: its operands, word by word, and in `specs/` how each command is read. The functions of the readers
//! are exactly these definitions.
#![tactic(auto)]

mod choices;
mod data;
mod descriptors;
pub mod fault;
pub mod line_rest;
mod named;
mod operands;
mod read_create_to_info;
mod read_getn_to_end;
mod read_getparam_to_detach;
mod read_line;
mod read_open_to_get;
