//! The state from which a history is legal.

pub use seat_desk::opening::Opening;
