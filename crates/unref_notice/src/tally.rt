//! The references of one object, as they are kept.

/// How many references an object has, and whether references came or went since the step began.
#[derive(Clone, Copy, Drop)]
pub struct Tally {
    pub now: u64,
    pub touched: bool,
}
