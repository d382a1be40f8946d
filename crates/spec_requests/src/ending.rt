//! How a run ends.

/// How a run ends: no thread can go on and none waits for another, some wait, or the budget is used up.
#[derive(Clone, Copy, Debug, PartialEq, Eq)]
pub enum Ending {
    Complete,
    Stalled,
    Budget,
}
