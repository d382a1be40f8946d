//! The limits of seats. The rule of the table cites these constants too.

/// The most seats.
pub const SEATS_MAX: u32 = 64;

/// The most turns of a seat.
pub const CALLS_MAX: u32 = 10_000;

/// The most entries of a history: as many seats with as many turns.
pub const HISTORY_MAX: u64 = 640_000;
