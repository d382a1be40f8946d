//! Calls of seats with their replies.

pub use spec_histories::call::{SeatAct, SeatReply};
pub use spec_histories::entry::SeatEntry;
