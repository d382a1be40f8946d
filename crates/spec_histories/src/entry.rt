//! Calls of seats with their replies.

use crate::call::{SeatAct, SeatReply};
use dk_base::number::Tid;

/// A call of a seat with its reply. `number` counts the seat's own entries, from 0.
pub struct SeatEntry {
    pub seat: u32,
    pub number: u64,
    pub thread: Tid,
    pub act: SeatAct,
    pub reply: SeatReply,
}

/// By hand, so that dropping an entry is one call in the crates above.
impl Drop for SeatEntry {
    fn drop(self) {
        let SeatEntry {
            seat: _,
            number: _,
            thread: _,
            act: _,
            reply: _,
        } = self;
    }
}
