//! The text of a history: what it has declared, its lines as values, how a line is written and how it is read. The
//! definitions stand in `specs/`; the reader is exactly the definition of reading.
#![tactic(auto)]

mod calling;
mod changes;
mod counts;
mod declarations;
mod descriptors;
mod events;
mod faults;
mod fitting;
mod kinds;
mod known;
pub mod laws;
pub mod limits;
pub mod line;
mod mention;
mod named;
pub mod names;
mod opened;
mod operands;
pub mod place;
pub mod reading;
mod requests;
mod short;
mod table;
mod values;
pub mod write_end;
pub mod write_event;
pub mod write_head;
mod write_names;
mod write_operands;
mod write_request;
