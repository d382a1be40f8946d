//! The limits of seats. Definitions cite these constants too.

/// The most seats at one kernel.
pub const SEATS_MAX: u32 = seat_table::limits::SEATS_MAX;

/// The most calls of a seat.
pub const CALLS_MAX: u32 = seat_table::limits::CALLS_MAX;

/// The most entries of a history: as many seats with as many calls.
pub const HISTORY_MAX: u64 = seat_table::limits::HISTORY_MAX;
