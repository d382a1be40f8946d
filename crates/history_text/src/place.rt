//! Where a line of a history stands.

/// Which lines may come.
#[derive(Clone, Copy, PartialEq, Eq)]
pub enum Stage {
    /// Only lines of processes and children stand before.
    Head,
    Body,
    /// The end line stands before.
    Ended,
}

/// Where a line stands: which lines may come, and what the events before it left.
#[derive(Clone, Copy, PartialEq, Eq)]
pub struct Place {
    pub stage: Stage,
    /// The clock has passed the latest from which it moves (`CLOCK_MAX`).
    pub late: bool,
    /// There were as many events as a kernel has (`EVENTS_MAX`).
    pub full: bool,
}

/// What the first word of a line says that it is.
#[derive(Clone, Copy, PartialEq, Eq)]
pub enum Kind {
    Process,
    Child,
    Name,
    Procedure,
    Path,
    /// A number.
    Event,
    End,
}
